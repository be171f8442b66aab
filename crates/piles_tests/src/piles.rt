// Runs on piles: a closing between two lock-outs over a table, and an hour chain under a pile.

use costs::{Plain, TwoTier};
use hours::{HourRow, new_chain};
use layers::Draft;
use makes::ArcTable;
use networks::{Lockout, Stop};
use runs::{Call, Outcome};
use search::{Answer, FULL_BUDGET};
use std::test::Fail;
use tests_kit::{ZERO, bounds, is_least, row, run_all, tiers, triangle};

#[test]
fn closing_in_a_pile(rt: HostRuntime) -> Result<(), Fail> {
    let mut rows = [row(1, 2, 0, 5, 1)];
    let table = Lockout::new(ArcTable::new(2, 1, &mut rows));
    let mut draft = Draft::new(table, bounds(0, 1_000_000)?, Plain { units: -10 });
    assert!(rt; draft.supply(1, bounds(0, 9)?).is_ok());
    assert!(rt; draft.demand(2, bounds(0, 4)?).is_ok());
    let mut net = Lockout::new(draft.close());
    let calls = [
        Call::Settle {
            budget: FULL_BUDGET,
        },
        Call::TakeOut { layer: 1, arc: 1 },
        Call::Settle {
            budget: FULL_BUDGET,
        },
        Call::HandBack { layer: 2, arc: 1 },
        Call::HandBack { layer: 1, arc: 1 },
        Call::TakeOut { layer: 1, arc: 2 },
        Call::TakeOut { layer: 2, arc: 2 },
        Call::HandBack { layer: 2, arc: 2 },
        Call::Settle {
            budget: FULL_BUDGET,
        },
    ];
    let mut flow = [0; 4];
    let mut prices = [ZERO; 4];
    let outcomes = run_all(&mut net, &mut flow, &mut prices, &[], &calls)?;
    assert!(rt; is_least(outcomes[0], -36));
    assert!(rt; is_least(outcomes[2], 0));
    assert_eq!(rt; outcomes[3], Outcome::Refused(Stop::NotOut(1)));
    assert_eq!(rt; outcomes[4], Outcome::Done);
    assert_eq!(rt; outcomes[5], Outcome::Refused(Stop::Absent(2)));
    assert_eq!(rt; outcomes[6], Outcome::Done);
    assert!(rt; is_least(outcomes[8], -36));
    assert_eq!(rt; flow, [4, 4, 4, 4]);
    Ok(())
}

#[test]
fn triangle_in_a_pile(rt: HostRuntime) -> Result<(), Fail> {
    let mut rows = triangle();
    let table = Lockout::new(ArcTable::new(3, 4, &mut rows));
    let closing = Draft::new(table, bounds(0, 0)?, Plain { units: 0 }).close();
    let mut net = Lockout::new(closing);
    let calls = [
        Call::TakeOut { layer: 1, arc: 3 },
        Call::Settle {
            budget: FULL_BUDGET,
        },
        Call::TakeOut { layer: 2, arc: 3 },
        Call::HandBack { layer: 1, arc: 3 },
        Call::Settle {
            budget: FULL_BUDGET,
        },
        Call::HandBack { layer: 2, arc: 3 },
        Call::Settle {
            budget: FULL_BUDGET,
        },
    ];
    let mut flow = [0; 5];
    let mut prices = [ZERO; 5];
    let outcomes = run_all(&mut net, &mut flow, &mut prices, &[], &calls)?;
    assert_eq!(rt; outcomes[1], Outcome::Settled(Answer::None));
    assert_eq!(rt; outcomes[4], Outcome::Settled(Answer::None));
    assert!(rt; is_least(outcomes[6], 19));
    assert_eq!(rt; flow, [5, 5, 1, 6, 0]);
    Ok(())
}

fn rates(lo: i32, hi: i32, units: i64) -> HourRow<Plain> {
    HourRow {
        lo,
        hi,
        cost: Plain { units },
    }
}

// Sun in the first hour alone, mains at 5, no generator, a lamp of 2 and of 6, and a battery of 1 to 4.
fn day() -> [HourRow<Plain>; 10] {
    [
        rates(0, 8, 0),
        rates(0, 3, 5),
        rates(0, 0, 0),
        rates(2, 2, 0),
        rates(1, 4, 0),
        rates(0, 0, 0),
        rates(0, 3, 5),
        rates(0, 0, 0),
        rates(6, 6, 0),
        rates(1, 4, 0),
    ]
}

#[test]
fn two_hours_alone(rt: HostRuntime) -> Result<(), Fail> {
    let mut rows = day();
    let mut net = new_chain(2, &mut rows);
    let two = bounds(0, 2)?;
    let calls = [
        Call::Settle {
            budget: FULL_BUDGET,
        },
        Call::Rebound {
            arc: 2,
            bounds: two,
        },
        Call::Rebound {
            arc: 7,
            bounds: two,
        },
        Call::Settle {
            budget: FULL_BUDGET,
        },
    ];
    let mut flow = [0; 10];
    let mut prices = [ZERO; 3];
    let outcomes = run_all(&mut net, &mut flow, &mut prices, &[], &calls)?;
    assert!(rt; is_least(outcomes[0], 15));
    assert_eq!(rt; outcomes[3], Outcome::Settled(Answer::None));
    assert_eq!(rt; flow, [5, 0, 0, 2, 4, 0, 3, 0, 6, 1]);
    Ok(())
}

#[test]
fn hours_in_a_pile(rt: HostRuntime) -> Result<(), Fail> {
    let mut rows = day();
    let chain = Lockout::new(new_chain(2, &mut rows));
    let closing = Draft::new(chain, bounds(0, 0)?, Plain { units: 0 }).close();
    let mut net = Lockout::new(closing);
    let calls = [
        Call::TakeOut { layer: 1, arc: 7 },
        Call::Settle {
            budget: FULL_BUDGET,
        },
        Call::HandBack { layer: 1, arc: 7 },
        Call::Settle {
            budget: FULL_BUDGET,
        },
    ];
    let mut flow = [0; 11];
    let mut prices = [ZERO; 5];
    let outcomes = run_all(&mut net, &mut flow, &mut prices, &[], &calls)?;
    assert_eq!(rt; outcomes[1], Outcome::Settled(Answer::None));
    assert!(rt; is_least(outcomes[3], 15));
    assert_eq!(rt; flow, [5, 0, 0, 2, 4, 0, 3, 0, 6, 1, 0]);
    Ok(())
}

// One hour: sun and mains at the same first cost, of which mains is cheaper in the second, and a lamp of 2.
fn one_hour() -> [HourRow<TwoTier>; 5] {
    let at = |lo, hi, cost| HourRow { lo, hi, cost };
    [
        at(0, 3, tiers(1, 9)),
        at(0, 3, tiers(1, 2)),
        at(0, 3, tiers(2, 0)),
        at(2, 2, tiers(0, 0)),
        at(0, 0, tiers(0, 0)),
    ]
}

fn is_total(o: Outcome<TwoTier>, first: i64, second: i64) -> bool {
    matches!(o, Outcome::Settled(Answer::Least { total, laps: _ }) if total == tiers(first, second))
}

// A supply of 1 at the hour and a demand of 1 outside gain 1 in the first cost on the return arc.
#[test]
fn two_tiers_in_a_pile(rt: HostRuntime) -> Result<(), Fail> {
    let mut rows = one_hour();
    let chain = Lockout::new(new_chain(1, &mut rows));
    let mut draft = Draft::new(chain, bounds(0, 1)?, tiers(-1, 0));
    assert!(rt; draft.supply(1, bounds(0, 1)?).is_ok());
    assert!(rt; draft.demand(2, bounds(0, 1)?).is_ok());
    let mut net = draft.close();
    let calls = [
        Call::Settle {
            budget: FULL_BUDGET,
        },
        Call::TakeOut { layer: 1, arc: 2 },
        Call::Settle {
            budget: FULL_BUDGET,
        },
        Call::HandBack { layer: 1, arc: 2 },
    ];
    let mut flow = [0; 8];
    let mut prices = [tiers(0, 0); 4];
    let outcomes = run_all(&mut net, &mut flow, &mut prices, &[], &calls)?;
    assert!(rt; is_total(outcomes[0], 0, 2));
    assert!(rt; is_total(outcomes[2], 0, 9));
    assert_eq!(rt; outcomes[3], Outcome::Done);
    assert_eq!(rt; flow, [1, 0, 0, 2, 0, 1, 1, 1]);
    Ok(())
}
