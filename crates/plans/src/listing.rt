// One call of a list, with its tag kept in a ring.

ghost use Rattle.std.specs.Prelude.{◌≡◌, ℕ, take, drop};
ghost use Rattle.std.specs.Option.{option_map};
ghost use Rattle.runs.specs.States.{state};
ghost use Rattle.runs.specs.Events.{asked, came};
ghost use Rattle.plans.specs.Keeping.{settle_came, done_came};
ghost use Rattle.plans.specs.Lists.{Makes};

use crate::changing::{rebound, recost};
use crate::settling::{settle, take_up};
use costs::CostKind;
use networks::{Network, Stop, TagRing};
use runs::{Call, Outcome};
use search::Answer;

// The flows from a place on, that many or as many as there are.
fn part(offers: &[i32], from: usize, len: usize) -> &[i32]
    ensures { result.now ≡ take len (drop from offers.now) }
{
    let rest = &offers[from.min(offers.len())..];
    &rest[..len.min(rest.len())]
}

// Makes one call; none where it would be granted, and its tag has no place or no tag is kept for it.
pub fn make<N: Network, const ROOM: usize>(
    net: &mut N,
    flow: &mut [i32],
    needs: &[i32],
    prices: &mut [N::Cost],
    marks: &mut [u8],
    tags: &mut TagRing<ROOM>,
    offers: &[i32],
    call: Call<N::Cost>,
) -> Option<Outcome<N::Cost>>
    ensures makes { Makes N.Cost.CostKind.kind (state (N.meaning net.old) flow.old needs.now prices.old marks.old) tags.old.places (asked offers.now call) result (state (N.meaning net.new) flow.new needs.now prices.new marks.new) tags.new.places }
    ensures same_references { N.references net.new ≡ N.references net.old }
{
    match call {
        Call::Settle { budget } => Some(settle(net, flow, needs, prices, marks, budget).into()),
        Call::Rebound { arc, bounds } => Some(rebound(net, arc, bounds).into()),
        Call::Recost { arc, cost } => Some(recost(net, arc, cost).into()),
        Call::TakeOut { layer, arc } => tags.take_out(net, layer, arc).map(|r| r.into()),
        Call::HandBack { layer, arc } => tags.hand_back(net, layer, arc).map(|r| r.into()),
        Call::TakeUp { from, len } => {
            let offered = part(offers, from, len);
            Some(take_up(net, flow, needs, prices, marks, offered).into())
        }
    }
}
