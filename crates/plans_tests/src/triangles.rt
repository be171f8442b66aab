// Runs on tables: the triangle with an arc out and handed back, with other bounds and costs; two nodes; two tiers.

use costs::Plain;
use makes::{ArcTable, Row};
use networks::{Lockout, Stop};
use runs::{Call, Outcome};
use search::{Answer, FULL_BUDGET};
use std::alloc::{AllocError, Global};
use std::test::Fail;
use tests_kit::{ZERO, bounds, is_least, row, run_all, run_some, tiers, triangle};

#[test]
fn out_and_back(rt: HostRuntime) -> Result<(), Fail> {
    let mut rows = triangle();
    let mut net = Lockout::new(ArcTable::new(3, 4, &mut rows));
    let nine = bounds(9, 9)?;
    let calls = [
        Call::Settle {
            budget: FULL_BUDGET,
        },
        Call::TakeOut { layer: 1, arc: 3 },
        Call::Rebound {
            arc: 3,
            bounds: nine,
        },
        Call::Settle {
            budget: FULL_BUDGET,
        },
        Call::HandBack { layer: 1, arc: 3 },
        Call::Settle {
            budget: FULL_BUDGET,
        },
    ];
    let mut flow = [0; 4];
    let mut prices = [ZERO; 3];
    let outcomes = run_all(&mut net, &mut flow, &mut prices, &[], &calls)?;
    assert!(rt; is_least(outcomes[0], 19));
    assert_eq!(rt; outcomes[1], Outcome::Done);
    assert_eq!(rt; outcomes[2], Outcome::Refused(Stop::Held(3)));
    assert_eq!(rt; outcomes[3], Outcome::Settled(Answer::None));
    assert_eq!(rt; outcomes[4], Outcome::Done);
    assert!(rt; is_least(outcomes[5], 19));
    assert_eq!(rt; flow, [5, 5, 1, 6]);
    Ok(())
}

#[test]
fn other_bounds_and_costs(rt: HostRuntime) -> Result<(), Fail> {
    let mut rows = triangle();
    let mut net = ArcTable::new(3, 4, &mut rows);
    let nine = bounds(9, 9)?;
    let calls = [
        Call::Rebound {
            arc: 4,
            bounds: nine,
        },
        Call::Settle {
            budget: FULL_BUDGET,
        },
        Call::Recost {
            arc: 3,
            cost: Plain { units: 1 },
        },
        Call::Settle {
            budget: FULL_BUDGET,
        },
        Call::TakeUp { from: 1, len: 4 },
        Call::Rebound {
            arc: 5,
            bounds: nine,
        },
    ];
    let mut flow = [0; 4];
    let mut prices = [ZERO; 3];
    let outcomes = run_all(&mut net, &mut flow, &mut prices, &[0, 1, 0, 0, 0], &calls)?;
    assert!(rt; is_least(outcomes[1], 31));
    assert!(rt; is_least(outcomes[3], 19));
    assert_eq!(rt; outcomes[4], Outcome::Refused(Stop::Imbalance(1)));
    assert_eq!(rt; outcomes[5], Outcome::Refused(Stop::Absent(5)));
    assert_eq!(rt; flow, [5, 5, 4, 9]);
    Ok(())
}

#[test]
fn paused_and_gone_on(rt: HostRuntime) -> Result<(), Fail> {
    let mut rows = triangle();
    let mut net = ArcTable::new(3, 4, &mut rows);
    let calls = [
        Call::Settle { budget: 0 },
        Call::Settle { budget: 1 },
        Call::Settle {
            budget: FULL_BUDGET,
        },
        Call::TakeUp { from: 0, len: 4 },
        Call::Settle { budget: 0 },
    ];
    let mut flow = [0; 4];
    let mut prices = [ZERO; 3];
    let outcomes = run_all(&mut net, &mut flow, &mut prices, &[5, 5, 1, 6], &calls)?;
    assert_eq!(rt; outcomes[0], Outcome::Settled(Answer::Paused { laps: 0 }));
    assert_eq!(rt; outcomes[1], Outcome::Settled(Answer::Paused { laps: 1 }));
    assert!(rt; is_least(outcomes[2], 19));
    assert_eq!(rt; outcomes[3], Outcome::Done);
    assert!(rt; is_least(outcomes[4], 19));
    Ok(())
}

#[test]
fn two_nodes(rt: HostRuntime) -> Result<(), Fail> {
    let mut rows = [row(1, 2, 0, 5, 1)];
    let mut net = ArcTable::new(2, 1, &mut rows);
    let calls = [Call::Settle { budget: 0 }];
    let mut flow = [3];
    let mut prices = [ZERO; 2];
    let outcomes = run_all(&mut net, &mut flow, &mut prices, &[], &calls)?;
    let found = Answer::Least {
        total: Plain { units: 3 },
        laps: 0,
    };
    assert_eq!(rt; outcomes[0], Outcome::Settled(found));
    flow = [6];
    let outcomes = run_all(&mut net, &mut flow, &mut prices, &[], &calls)?;
    assert_eq!(rt; outcomes[0], Outcome::Settled(Answer::None));
    assert_eq!(rt; flow, [6]);
    Ok(())
}

// Sixteen lines are out, the next take-out finds none free, and all are handed back, that one first.
fn seventeen(heap: Global) -> Result<Vec<Call<Plain>>, AllocError> {
    let outs = (1..18).map(|arc| Call::TakeOut { layer: 1, arc });
    let backs = (1..18).map(|i| Call::HandBack {
        layer: 1,
        arc: 18 - i,
    });
    outs.chain(backs).collect(heap)
}

#[test]
fn full_and_never_out(rt: HostRuntime) -> Result<(), Fail> {
    let mut rows = [row(1, 1, 0, 5, 1); 17];
    let mut net = Lockout::new(ArcTable::new(1, 17, &mut rows));
    let calls = seventeen(rt.alloc())?;
    let mut outcomes = [Outcome::Refused(Stop::Counts); 34];
    let mut flow = [0; 17];
    let mut prices = [ZERO; 1];
    let made = run_some(&mut net, &mut flow, &mut prices, &[], &calls, &mut outcomes)?;
    assert_eq!(rt; made, 34);
    assert_eq!(rt; outcomes[15], Outcome::Done);
    assert_eq!(rt; outcomes[16], Outcome::Refused(Stop::Full));
    assert_eq!(rt; outcomes[17], Outcome::Refused(Stop::NotOut(17)));
    assert_eq!(rt; outcomes[18], Outcome::Done);
    assert_eq!(rt; outcomes[33], Outcome::Done);
    Ok(())
}

// Sixteen arcs are taken out at each of five lock-outs, and handed back there.
fn eighty_out(heap: Global) -> Result<Vec<Call<Plain>>, AllocError> {
    let outs = (0..80).map(|i| Call::TakeOut {
        layer: 1 + i / 16,
        arc: 1 + i % 16,
    });
    let backs = (0..80).map(|i| Call::HandBack {
        layer: 1 + i / 16,
        arc: 1 + i % 16,
    });
    outs.chain(backs).collect(heap)
}

#[test]
fn eighty_tags(rt: HostRuntime) -> Result<(), Fail> {
    let mut rows = [row(1, 1, 0, 5, 1); 16];
    let three = Lockout::new(Lockout::new(Lockout::new(ArcTable::new(1, 16, &mut rows))));
    let mut net = Lockout::new(Lockout::new(three));
    let calls = eighty_out(rt.alloc())?;
    let mut outcomes = [Outcome::Refused(Stop::Counts); 160];
    let mut flow = [0; 16];
    let mut prices = [ZERO; 1];
    let made = run_some(&mut net, &mut flow, &mut prices, &[], &calls, &mut outcomes)?;
    assert_eq!(rt; made, 160);
    assert!(rt; outcomes.iter().all(|outcome| *outcome == Outcome::Done));
    Ok(())
}

#[test]
fn two_tiers(rt: HostRuntime) -> Result<(), Fail> {
    let mut rows = [
        Row::new(1, 2, 0, 5, tiers(1, 0)),
        Row::new(1, 2, 0, 5, tiers(0, 9)),
        Row::new(2, 1, 3, 3, tiers(0, 0)),
    ];
    let mut net = ArcTable::new(2, 3, &mut rows);
    let calls = [Call::Settle {
        budget: FULL_BUDGET,
    }];
    let mut flow = [0; 3];
    let mut prices = [tiers(0, 0); 2];
    let outcomes = run_all(&mut net, &mut flow, &mut prices, &[], &calls)?;
    let Outcome::Settled(Answer::Least { total, laps: _ }) = outcomes[0] else {
        return Err(Fail::new("not least"));
    };
    assert_eq!(rt; total, tiers(0, 27));
    assert_eq!(rt; flow, [0, 3, 3]);
    Ok(())
}
