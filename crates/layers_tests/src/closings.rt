// A closing over one arc, with a supply at its start and a demand at its end.

use costs::{Plain, TwoTier};
use layers::{Closing, Draft};
use makes::{ArcTable, Row};
use networks::{Arc, Bounds, Lockout, Network, Stop, try_out};
use std::test::Fail;

fn row() -> Row<Plain> {
    Row::new(1, 2, 0, 5, Plain { units: 1 })
}

// The arc of an entry: it costs nothing, and its cost is fixed.
fn entry(from: usize, to: usize, lo: i32, hi: i32) -> Arc<Plain> {
    Arc {
        fixed: true,
        ..Arc::free(from, to, lo, hi, Plain { units: 0 })
    }
}

#[test]
fn arcs_in_their_order(rt: HostRuntime) -> Result<(), Fail> {
    let mut rows = [row()];
    let table = ArcTable::new(2, 1, &mut rows);
    assert_eq!(rt; Closing::check(&table), Ok(()));
    let back = Bounds::new(0, 1_000_000)?;
    let mut draft = Draft::new(table, back, Plain { units: -10 });
    assert_eq!(rt; draft.supply(1, Bounds::new(0, 9)?), Ok(()));
    assert_eq!(rt; draft.demand(2, Bounds::new(0, 4)?), Ok(()));
    let net = draft.close();
    assert_eq!(rt; (net.nodes(), net.arcs()), (4, 4));
    let lower = Arc::free(1, 2, 0, 5, Plain { units: 1 });
    let return_arc = Arc::free(3, 4, 0, 1_000_000, Plain { units: -10 });
    assert_eq!(rt; net.arc(0), None);
    assert_eq!(rt; net.arc(1), Some(lower));
    assert_eq!(rt; net.arc(2), Some(entry(4, 1, 0, 9)));
    assert_eq!(rt; net.arc(3), Some(entry(2, 3, 0, 4)));
    assert_eq!(rt; net.arc(4), Some(return_arc));
    assert_eq!(rt; net.arc(5), None);
    Ok(())
}

#[test]
fn amended_arcs(rt: HostRuntime) -> Result<(), Fail> {
    let mut rows = [row()];
    let back = Bounds::new(0, 8)?;
    let mut draft = Draft::new(ArcTable::new(2, 1, &mut rows), back, Plain { units: 0 });
    assert_eq!(rt; draft.demand(1, back), Ok(()));
    let mut net = draft.close();
    let b = Bounds::new(1, 3)?;
    assert_eq!(rt; net.rebound(1, b), Ok(()));
    assert_eq!(rt; net.rebound(2, b), Ok(()));
    assert_eq!(rt; net.rebound(3, b), Ok(()));
    assert_eq!(rt; net.rebound(4, b), Err(Stop::Absent(4)));
    assert_eq!(rt; net.recost(1, Plain { units: 7 }), Ok(()));
    assert_eq!(rt; net.recost(2, Plain { units: 7 }), Err(Stop::Fixed(2)));
    assert_eq!(rt;
        net.recost(3, Plain { units: 1_000_001 }),
        Err(Stop::Cost(3))
    );
    assert_eq!(rt; net.recost(3, Plain { units: -9 }), Ok(()));
    let lower = Arc::free(1, 2, 1, 3, Plain { units: 7 });
    let return_arc = Arc::free(3, 4, 1, 3, Plain { units: -9 });
    assert_eq!(rt; net.arc(1), Some(lower));
    assert_eq!(rt; net.arc(2), Some(entry(1, 3, 1, 3)));
    assert_eq!(rt; net.arc(3), Some(return_arc));
    Ok(())
}

#[test]
fn refused_entries(rt: HostRuntime) -> Result<(), Fail> {
    let mut rows = [row()];
    let b = Bounds::new(0, 1)?;
    let mut draft = Draft::new(ArcTable::new(2, 1, &mut rows), b, Plain { units: 0 });
    assert_eq!(rt; draft.supply(0, b), Err(Stop::Absent(0)));
    assert_eq!(rt; draft.demand(3, b), Err(Stop::Absent(3)));
    for _ in 0..32 {
        assert_eq!(rt; draft.supply(2, b), Ok(()));
    }
    assert_eq!(rt; draft.demand(3, b), Err(Stop::Absent(3)));
    assert_eq!(rt; draft.demand(2, b), Err(Stop::Full));
    assert_eq!(rt; draft.close().arcs(), 34);
    Ok(())
}

#[test]
fn too_many_arcs(rt: HostRuntime) -> Result<(), Fail> {
    let b = Bounds::new(0, 1)?;
    let mut rows = [row(); 1023];
    let mut draft = Draft::new(ArcTable::new(2, 1023, &mut rows), b, Plain { units: 0 });
    assert_eq!(rt; draft.supply(1, b), Err(Stop::Counts));
    assert_eq!(rt; draft.close().arcs(), 1024);
    let mut more = [row(); 1024];
    let table = ArcTable::new(2, 1024, &mut more);
    assert_eq!(rt; Closing::check(&table), Err(Stop::Counts));
    let mut unfit = Draft::new(Lockout::new(table), b, Plain { units: 0 }).close();
    assert_eq!(rt; (unfit.nodes(), unfit.arcs(), unfit.lockouts()), (0, 0, 0));
    assert_eq!(rt; unfit.rebound(1, b), Err(Stop::Absent(1)));
    assert_eq!(rt; try_out(&mut unfit, 1, 1), Err(Stop::Absent(1)));
    Ok(())
}

#[test]
fn closing_in_a_pile(rt: HostRuntime) -> Result<(), Fail> {
    let mut rows = [row()];
    let b = Bounds::new(0, 6)?;
    let mut draft = Draft::new(
        Lockout::new(ArcTable::new(2, 1, &mut rows)),
        b,
        Plain { units: 0 },
    );
    assert_eq!(rt; draft.supply(1, b), Ok(()));
    let mut pile = Lockout::new(draft.close());
    assert_eq!(rt; (pile.lockouts(), pile.arcs()), (2, 3));
    assert_eq!(rt; try_out(&mut pile, 1, 1), Ok(()));
    assert_eq!(rt; try_out(&mut pile, 1, 2), Err(Stop::Absent(2)));
    assert_eq!(rt; try_out(&mut pile, 2, 2), Ok(()));
    assert_eq!(rt; try_out(&mut pile, 2, 3), Ok(()));
    assert_eq!(rt; try_out(&mut pile, 2, 4), Err(Stop::Absent(4)));
    Ok(())
}

#[test]
fn closing_at_two_tier_costs(rt: HostRuntime) -> Result<(), Fail> {
    let (near, far) = (
        TwoTier {
            first: 0,
            second: 4,
        },
        TwoTier {
            first: 1,
            second: -2,
        },
    );
    let mut rows = [Row::new(1, 2, 0, 5, near)];
    let b = Bounds::new(0, 9)?;
    let mut draft = Draft::new(ArcTable::new(2, 1, &mut rows), b, far);
    assert_eq!(rt; draft.supply(1, b), Ok(()));
    let mut net = draft.close();
    let zero = TwoTier {
        first: 0,
        second: 0,
    };
    let supply = Arc {
        fixed: true,
        ..Arc::free(4, 1, 0, 9, zero)
    };
    assert_eq!(rt; net.arc(2), Some(supply));
    assert_eq!(rt; net.arc(3), Some(Arc::free(3, 4, 0, 9, far)));
    assert_eq!(rt; net.recost(2, near), Err(Stop::Fixed(2)));
    assert_eq!(rt; net.recost(3, near), Ok(()));
    assert_eq!(rt; net.arc(3), Some(Arc::free(3, 4, 0, 9, near)));
    assert_eq!(rt; net.arc(1), Some(Arc::free(1, 2, 0, 5, near)));
    Ok(())
}

#[test]
fn lockout_over_an_unfit_network(rt: HostRuntime) -> Result<(), Fail> {
    let mut rows = [row()];
    let table = ArcTable::new(300, 1, &mut rows);
    assert_eq!(rt; Lockout::check(&table), Err(Stop::Counts));
    let mut net = Lockout::new(table);
    assert_eq!(rt; (net.nodes(), net.arcs(), net.lockouts()), (0, 0, 0));
    assert_eq!(rt; net.arc(1), None);
    assert_eq!(rt; net.rebound(1, Bounds::new(0, 1)?), Err(Stop::Absent(1)));
    assert_eq!(rt; try_out(&mut net, 1, 1), Err(Stop::Absent(1)));
    assert_eq!(rt; Lockout::check(&ArcTable::new(2, 1, &mut [row()])), Ok(()));
    Ok(())
}
