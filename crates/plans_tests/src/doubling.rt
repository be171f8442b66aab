// A network whose prices double from stage to stage unless they are tidied: 101 nodes, 345 arcs, two tiers.
//
// Stage i has the nodes 2i and 2i + 1. Its first two arcs measure it from a node two stages before, at a
// second cost of a million, of alternating sign. In the first tier every change of prices is small, which
// leaves the second tier free: it grows by the factor 2 a stage, and untidied would pass 2^63 at stage 43.

use costs::TwoTier;
use makes::{ArcTable, Row};
use runs::{Call, Outcome};
use search::{Answer, FULL_BUDGET};
use std::alloc::{AllocError, Global};
use std::test::Fail;
use tests_kit::{run_all, tiers};

const STAGES: usize = 50;

const LARGE: i64 = 1_000_000;

fn arc(from: usize, to: usize, lo: i32, first: i64, second: i64) -> Row<TwoTier> {
    Row::new(from, to, lo, 1, tiers(first, second))
}

// The two arcs that measure a stage: from node 1, or from the first node two stages before.
fn measured(stage: usize, place: usize) -> Row<TwoTier> {
    let i = stage.min(STAGES);
    let j = place.min(1);
    let second = if i % 2 == 1 { -LARGE } else { LARGE };
    let less = 1 + j as i64;
    if i <= 2 {
        return arc(1, 2 * i + j, 0, 3 - 3 * i as i64 - less, second);
    }
    arc(2 * i - 4, 2 * i + j, 0, -4 - less, second)
}

fn stages(heap: Global) -> Result<Vec<Row<TwoTier>>, AllocError> {
    let mut rows = Vec::new(heap);
    for i in 1..=STAGES {
        rows.push(measured(i, 0))?;
        rows.push(measured(i, 1))?;
        if i < STAGES {
            rows.push(arc(2 * i, 2 * i + 2, 1, 0, 0))?;
        }
    }
    for i in 1..STAGES {
        rows.push(arc(2 * i + 2, 2 * i, 0, 1, 0))?;
        rows.push(arc(2 * i, 2 * i + 3, 0, -LARGE, 0))?;
        rows.push(arc(2 * i + 1, 2 * i + 2, 0, -LARGE, 0))?;
        rows.push(arc(2 * i + 1, 2 * i + 3, 0, -LARGE, 0))?;
    }
    Ok(rows)
}

#[test]
fn prices_stay_small(rt: HostRuntime) -> Result<(), Fail> {
    let mut rows = stages(rt.alloc())?;
    let mut net = ArcTable::new(101, 345, &mut rows);
    let calls = [Call::Settle {
        budget: FULL_BUDGET,
    }];
    let mut flow = [0; 345];
    let mut prices = [tiers(0, 0); 101];
    let outcomes = run_all(&mut net, &mut flow, &mut prices, &[], &calls)?;
    let Outcome::Settled(Answer::Least { total, laps }) = outcomes[0] else {
        return Err(Fail::new("not least"));
    };
    assert_eq!(rt; total, tiers(49, 0));
    assert_eq!(rt; laps, 49);
    for p in prices {
        assert!(rt; p.first.unsigned_abs() <= 100_000_000);
        assert!(rt; p.second.unsigned_abs() <= 100_000_000);
    }
    Ok(())
}
