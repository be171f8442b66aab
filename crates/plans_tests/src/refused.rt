// A refused take-up leaves every table and the network as they were.

use costs::Plain;
use makes::ArcTable;
use networks::{Arc, Network, Stop, TagRing};
use plans::run;
use runs::{Call, Outcome};
use search::{Answer, FULL_BUDGET};
use std::test::Fail;
use tests_kit::{ROOM, ZERO, bounds, close, triangle};

// The tables of a plan over the triangle.
#[derive(Clone, Copy, Debug, PartialEq, Eq)]
struct Tables {
    flow: [i32; 4],
    needs: [i32; 3],
    prices: [Plain; 3],
    marks: [u8; 3],
}

// Runs the calls on a plan with these tables; all of them are made.
fn make<const CALLS: usize>(
    net: &mut impl Network<Cost = Plain>,
    plan: &mut Tables,
    calls: &[Call<Plain>; CALLS],
) -> Result<[Outcome<Plain>; CALLS], Fail> {
    let mut outcomes = [Outcome::Refused(Stop::Counts); CALLS];
    let mut tags = TagRing::<ROOM>::new();
    let made = run(
        net,
        &mut plan.flow,
        &mut plan.needs,
        &mut plan.prices,
        &mut plan.marks,
        &mut tags,
        &[1, 0, 0, 0],
        calls,
        &mut outcomes,
    );
    close(tags)?;
    if made? < CALLS {
        return Err(Fail::new("a call was not made"));
    }
    Ok(outcomes)
}

fn arcs_of_triangle(net: &impl Network<Cost = Plain>) -> [Option<Arc<Plain>>; 4] {
    [net.arc(1), net.arc(2), net.arc(3), net.arc(4)]
}

// A plan with a flow, prices and marks that are not those at the beginning, and then the take-up.
#[test]
fn take_up(rt: HostRuntime) -> Result<(), Fail> {
    let mut rows = triangle();
    let mut net = ArcTable::new(3, 4, &mut rows);
    let mut plan = Tables {
        flow: [0; 4],
        needs: [7; 3],
        prices: [ZERO; 3],
        marks: [7; 3],
    };
    let settle = Call::Settle {
        budget: FULL_BUDGET,
    };
    let ten = Call::Rebound {
        arc: 4,
        bounds: bounds(10, 10)?,
    };
    let outcomes = make(&mut net, &mut plan, &[settle, ten, settle])?;
    assert_eq!(rt; outcomes[2], Outcome::Settled(Answer::None));
    assert_eq!(rt; plan.flow, [5, 5, 1, 6]);
    assert_eq!(rt; plan.needs, [0; 3]);
    assert!(rt; plan.prices != [ZERO; 3]);
    assert_eq!(rt; plan.marks, [1, 0, 0]);
    let before = plan;
    let shown = arcs_of_triangle(&net);
    let outcomes = make(&mut net, &mut plan, &[Call::TakeUp { from: 0, len: 4 }])?;
    assert_eq!(rt; outcomes[0], Outcome::Refused(Stop::Imbalance(1)));
    assert_eq!(rt; plan, before);
    assert_eq!(rt; arcs_of_triangle(&net), shown);
    Ok(())
}
