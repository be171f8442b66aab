// Pass over an hour chain at costs of two numbers, and over a lock-out with an arc out.

use costs::{Plain, TwoTier};
use hours::{HourRow, new_chain};
use makes::ArcTable;
use networks::{Lockout, Network, Stop};
use plans::pass;
use runs::Call;
use search::FULL_BUDGET;
use std::test::Fail;
use tests_kit::{ZERO, row, run_all, tiers};

// The order of one arc of a plan with so many nodes and no needs, where it passes.
fn order<N: Network>(net: &N, flow: &[i32], prices: &[N::Cost], arc: usize) -> Result<i32, Stop> {
    let needs = [0; 3];
    let marks = [0; 3];
    let nodes = prices.len().min(3);
    pass(net, flow, &needs[..nodes], prices, &marks[..nodes])?.order(arc)
}

// A row at a cost whose second number is 1.
fn hour(lo: i32, hi: i32, first: i64) -> HourRow<TwoTier> {
    HourRow {
        lo,
        hi,
        cost: tiers(first, 1),
    }
}

#[test]
fn passed_chain(rt: HostRuntime) -> Result<(), Fail> {
    let none = hour(0, 0, 0);
    let first = [
        hour(0, 8, 0),
        hour(0, 3, 5),
        none,
        hour(2, 2, 0),
        hour(1, 4, 0),
    ];
    let second = [none, hour(0, 3, 5), none, hour(6, 6, 0), hour(1, 4, 0)];
    let mut rows = [none; 10];
    rows[..5].copy_from_slice(&first);
    rows[5..].copy_from_slice(&second);
    let mut net = Lockout::new(new_chain(2, &mut rows));
    let mut flow = [0; 10];
    let mut prices = [tiers(0, 0); 3];
    assert_eq!(rt; order(&net, &flow, &prices, 1), Err(Stop::Kilter(4)));
    let calls = [Call::Settle {
        budget: FULL_BUDGET,
    }];
    let _ = run_all(&mut net, &mut flow, &mut prices, &[], &calls)?;
    assert_eq!(rt; order(&net, &flow, &prices, 7), Ok(3));
    assert_eq!(rt; order(&net, &flow, &prices, 10), Ok(1));
    assert_eq!(rt; order(&net, &flow, &prices, 11), Err(Stop::Absent(11)));
    Ok(())
}

// An arc that is out carries nothing, whatever it costs; once it is handed back the plan is not a least one.
#[test]
fn passed_with_an_arc_out(rt: HostRuntime) -> Result<(), Fail> {
    let mut rows = [row(1, 2, 0, 5, 1), row(1, 2, 0, 5, 4), row(2, 1, 2, 2, 0)];
    let mut net = Lockout::new(ArcTable::new(2, 3, &mut rows));
    let prices = [ZERO, Plain { units: 4 }];
    assert_eq!(rt; order(&net, &[0, 2, 2], &prices, 1), Err(Stop::Kilter(1)));
    let tag = net.take_out(1, 1)?;
    let passed = order(&net, &[0, 2, 2], &prices, 1);
    let back = net.hand_back(1, tag);
    assert_eq!(rt; passed, Ok(0));
    assert!(rt; back.is_ok());
    Ok(())
}
