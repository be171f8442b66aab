// Run: a plan is opened, and the calls of a list are made in order.

ghost use Rattle.std.specs.Prelude.{◌≡◌, ℕ, length};
ghost use Rattle.runs.specs.States.{state};
ghost use Rattle.plans.specs.Lists.{MakesAll, Runs, EveryCallMade};

use crate::listing::make;
use crate::opening::open;
use costs::CostKind;
use networks::{Network, Stop, TagRing};
use runs::{Call, Outcome};

// Makes the calls in order, and says how many it made; it ends early only where the outcomes run short, or before a
// call that the tags do not suffice for.
fn make_all<N: Network, const ROOM: usize>(
    net: &mut N,
    flow: &mut [i32],
    needs: &[i32],
    prices: &mut [N::Cost],
    marks: &mut [u8],
    tags: &mut TagRing<ROOM>,
    offers: &[i32],
    calls: &[Call<N::Cost>],
    outcomes: &mut [Outcome<N::Cost>],
) -> usize
    ensures makes { MakesAll N.Cost.CostKind.kind (state (N.meaning net.old) flow.old needs.now prices.old marks.old) tags.old.places offers.now calls.now outcomes.old result (state (N.meaning net.new) flow.new needs.now prices.new marks.new) tags.new.places outcomes.new }
    ensures same_references { N.references net.new ≡ N.references net.old }
{
    for (i, slot) in outcomes.iter_mut().enumerate() {
        let Some(call) = calls.get(i) else {
            return i;
        };
        let Some(outcome) = make(net, flow, needs, prices, marks, tags, offers, *call) else {
            return i;
        };
        *slot = outcome;
    }
    outcomes.len()
}

// Opens a plan and makes the calls of a list on it, each outcome written into a lent table; answers how many
// were made, or why the plan cannot be opened. A flow that a call offers stands among `offers`.
pub fn run<N: Network, const ROOM: usize>(
    net: &mut N,
    flow: &mut [i32],
    needs: &mut [i32],
    prices: &mut [N::Cost],
    marks: &mut [u8],
    tags: &mut TagRing<ROOM>,
    offers: &[i32],
    calls: &[Call<N::Cost>],
    outcomes: &mut [Outcome<N::Cost>],
) -> Result<usize, Stop>
    ensures runs { Runs N.Cost.CostKind.kind (state (N.meaning net.old) flow.old needs.old prices.old marks.old) tags.old.places offers.now calls.now outcomes.old result (state (N.meaning net.new) flow.new needs.new prices.new marks.new) tags.new.places outcomes.new }
    ensures every { EveryCallMade (N.meaning net.old) tags.old.places (length calls.now) (length outcomes.old) result }
    ensures same_references { N.references net.new ≡ N.references net.old }
{
    open(net, flow, needs, prices, marks)?;
    Ok(make_all(
        net, flow, needs, prices, marks, tags, offers, calls, outcomes,
    ))
}
