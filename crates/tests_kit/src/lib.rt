// What tests of runs share: a run over small tables, and a question about its outcomes. Only tests use it.
#![tactic(auto)]

use costs::{Plain, TwoTier};
use makes::Row;
use networks::{Bounds, Network, Stop, TagRing};
use plans::run;
use runs::{Call, Outcome};
use search::Answer;
use std::mem::ManuallyDrop;
use std::test::Fail;

// Places of a ring, as many as five lock-outs have lines.
pub const ROOM: usize = 80;

// A price to begin with.
pub const ZERO: Plain = Plain { units: 0 };

pub fn tiers(first: i64, second: i64) -> TwoTier {
    TwoTier { first, second }
}

pub fn row(from: usize, to: usize, lo: i32, hi: i32, units: i64) -> Row<Plain> {
    Row::new(from, to, lo, hi, Plain { units })
}

// From 1 to 2 to 3 and from 1 to 3, and just 6 back from 3 to 1.
pub fn triangle() -> [Row<Plain>; 4] {
    [
        row(1, 2, 0, 5, 2),
        row(2, 3, 0, 5, 1),
        row(1, 3, 0, 4, 4),
        row(3, 1, 6, 6, 0),
    ]
}

pub fn bounds(lo: i32, hi: i32) -> Result<Bounds, Fail> {
    Ok(Bounds::new(lo, hi)?)
}

// Lets a ring go that has to be empty. One with tags left cannot be let go: a test that is about to fail keeps it for ever.
pub fn close(tags: TagRing<ROOM>) -> Result<(), Fail> {
    tags.close().map_err(|left| {
        let _kept = unsafe { ManuallyDrop::new_unchecked(left) };
        Fail::new("tags are left")
    })
}

// Runs the calls on a plan, as far as they can be made, and says how many were.
pub fn run_some<N: Network, const NODES: usize>(
    net: &mut N,
    flow: &mut [i32],
    prices: &mut [N::Cost; NODES],
    offers: &[i32],
    calls: &[Call<N::Cost>],
    outcomes: &mut [Outcome<N::Cost>],
) -> Result<usize, Fail> {
    if NODES > 256 {
        return Err(Fail::new("too many nodes"));
    }
    let mut needs = [0; NODES];
    let mut marks = [7; NODES];
    let mut tags = TagRing::<ROOM>::new();
    let made = run(
        net, flow, &mut needs, prices, &mut marks, &mut tags, offers, calls, outcomes,
    );
    close(tags)?;
    Ok(made?)
}

// Runs the calls on a plan and gives what came of each; fails where one cannot be made. The outcomes hold
// before what no call of a plan that is open answers.
pub fn run_all<N: Network, const NODES: usize, const CALLS: usize>(
    net: &mut N,
    flow: &mut [i32],
    prices: &mut [N::Cost; NODES],
    offers: &[i32],
    calls: &[Call<N::Cost>; CALLS],
) -> Result<[Outcome<N::Cost>; CALLS], Fail> {
    let mut outcomes = [Outcome::Refused(Stop::Counts); CALLS];
    if run_some(net, flow, prices, offers, calls, &mut outcomes)? < CALLS {
        return Err(Fail::new("a call was not made"));
    }
    Ok(outcomes)
}

// The outcome is least with that total; the laps are told apart only where they are sure.
pub fn is_least(o: Outcome<Plain>, units: i64) -> bool {
    matches!(o, Outcome::Settled(Answer::Least { total, laps: _ }) if total.units == units)
}
