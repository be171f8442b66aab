// Seek: each arc in turn is brought into kilter.

ghost use Rattle.std.specs.Prelude.{◌≡◌, ℕ, ◌+◌, ◌<◌, ◌≤◌, List, length, ℤ};
ghost use Rattle.networks.specs.Nets.{shown};
ghost use Rattle.search.specs.Ready.{Ready};
ghost use Rattle.flows.specs.Flows.{EachArc};
ghost use Rattle.flows.specs.Kilter.{InKilter};
ghost use Rattle.search.specs.Going.{KilterAt, Going, Ended, StoodStill};

use crate::attempts::{Tried, attempt};
use networks::Network;

// Why the seeking stops early: the budget is used up by so many laps, or there is a cut.
#[derive(Clone, Copy)]
pub enum Halt {
    Paused(u32),
    Cut,
}

// Attempts at the arc at i until it is in kilter; answers the laps made. The flow found is where the search began.
fn bring_in<N: Network>(
    net: &N,
    flow: &mut [i32],
    prices: &mut [N::Cost],
    marks: &mut [u8],
    i: usize,
    budget: u32,
    made: u32,
) -> Result<u32, Halt>
    requires ready { Ready N.Cost.CostKind.kind (N.meaning net.now).nodes (shown (N.meaning net.now)) flow.old prices.old }
    requires arc { i < length flow.old }
    requires spent { made ≤ budget }
    requires marks { length marks.old ≡ (N.meaning net.now).nodes }
    ensures ends { (found : List ℤ) → Going N.Cost.CostKind.kind (N.meaning net.now).nodes (shown (N.meaning net.now)) found i made flow.old prices.old → Ended N.Cost.CostKind.kind (N.meaning net.now).nodes (shown (N.meaning net.now)) found (i + 1) budget flow.new prices.new marks.old marks.new result }
    ensures keeps { KilterAt N.Cost.CostKind.kind (shown (N.meaning net.now)) flow.old prices.old i → StoodStill N.Cost.CostKind.kind (shown (N.meaning net.now)) flow.old flow.new prices.old prices.new made result }
{
    let mut laps = made;
    loop {
        match attempt(net, flow, prices, marks, i, laps < budget) {
            Tried::Kilter => return Ok(laps),
            Tried::Short => return Err(Halt::Paused(laps)),
            Tried::Cut => return Err(Halt::Cut),
            Tried::Lapped => laps += 1,
        }
    }
}

// Brings every arc into kilter, in order; an arc in kilter stays so. Answers the laps made.
pub fn seek<N: Network>(
    net: &N,
    flow: &mut [i32],
    prices: &mut [N::Cost],
    marks: &mut [u8],
    budget: u32,
) -> Result<u32, Halt>
    requires going { Going N.Cost.CostKind.kind (N.meaning net.now).nodes (shown (N.meaning net.now)) flow.old 0 0 flow.old prices.old }
    requires marks { length marks.old ≡ (N.meaning net.now).nodes }
    ensures ends { Ended N.Cost.CostKind.kind (N.meaning net.now).nodes (shown (N.meaning net.now)) flow.old (length flow.old) budget flow.new prices.new marks.old marks.new result }
    ensures keeps { EachArc (InKilter N.Cost.CostKind.kind prices.old) (shown (N.meaning net.now)) flow.old → StoodStill N.Cost.CostKind.kind (shown (N.meaning net.now)) flow.old flow.new prices.old prices.new 0 result }
{
    let mut laps = 0;
    // An arc goes by its place: the flow changes on the way.
    for i in 0..flow.len() {
        laps = bring_in(net, flow, prices, marks, i, budget, laps)?;
    }
    Ok(laps)
}
