// A chain of two hours.

use crate::{HourChain, HourRow, check_chain, new_chain};
use costs::{Plain, TwoTier};
use networks::{Arc, Bounds, Network, Stop};
use std::test::Fail;

// The ends of an arc.
fn ends_of(chain: &HourChain<'_, Plain>, a: usize) -> Option<(usize, usize)> {
    chain.arc(a).map(|x| (x.from, x.to))
}

#[test]
fn chain_of_two_hours(rt: HostRuntime) -> Result<(), Fail> {
    let mut rows = [HourRow {
        lo: 0,
        hi: 8,
        cost: Plain { units: 0 },
    }; 10];
    assert_eq!(rt; check_chain(0, &rows), Err(Stop::Counts));
    assert_eq!(rt; check_chain(49, &rows), Err(Stop::Counts));
    assert_eq!(rt; check_chain(3, &rows), Err(Stop::Lengths));
    assert_eq!(rt; new_chain(49, &mut rows).nodes(), 0);
    let mut chain = new_chain(2, &mut rows);
    assert_eq!(rt; chain.nodes(), 3);
    assert_eq!(rt; chain.arcs(), 10);
    assert_eq!(rt; ends_of(&chain, 0), None);
    let first = [1, 2, 3, 4, 5].map(|a| ends_of(&chain, a));
    assert_eq!(rt; first, [(3, 1), (3, 1), (3, 1), (1, 3), (1, 2)].map(Some));
    let second = [6, 7, 8, 9, 10].map(|a| ends_of(&chain, a));
    assert_eq!(rt; second, [(3, 2), (3, 2), (3, 2), (2, 3), (2, 1)].map(Some));
    assert_eq!(rt; ends_of(&chain, 11), None);
    let b = Bounds::new(1, 4)?;
    assert_eq!(rt; chain.rebound(10, b), Ok(()));
    assert_eq!(rt; chain.recost(10, Plain { units: 5 }), Ok(()));
    let amended = Arc::free(2, 1, 1, 4, Plain { units: 5 });
    assert_eq!(rt; chain.arc(10), Some(amended));
    Ok(())
}

#[test]
fn chain_at_two_tier_costs(rt: HostRuntime) -> Result<(), Fail> {
    let cost = TwoTier {
        first: 2,
        second: -7,
    };
    let row = HourRow { lo: 0, hi: 8, cost };
    let mut rows = [row; 5];
    let mut chain = new_chain(1, &mut rows);
    assert_eq!(rt; chain.arc(4), Some(Arc::free(1, 2, 0, 8, cost)));
    let dear = TwoTier {
        first: 1_000_001,
        second: 0,
    };
    assert_eq!(rt; chain.recost(4, dear), Err(Stop::Cost(4)));
    let other = TwoTier {
        first: 0,
        second: 1,
    };
    assert_eq!(rt; chain.recost(4, other), Ok(()));
    assert_eq!(rt; chain.arc(4), Some(Arc::free(1, 2, 0, 8, other)));
    Ok(())
}
