// One lap: back by the labels from the sought node to the source, and over the chosen arc.

ghost use Rattle.std.specs.Prelude.{◌≡◌, ℕ, ◌<◌, ◌≤◌, length, ℤ, pos, ◌-ℤ◌, ◌≤ℤ◌, if◌then◌else◌, slice_set, unsigned_abs};
ghost use Rattle.std.specs.List.{AllByRecursion};
ghost use Rattle.networks.specs.Limits.{most_nodes, flow_limit};
ghost use Rattle.networks.specs.Nets.{shown};
ghost use Rattle.flows.specs.searching.Fits.{Small, Bounded, price_limit};
ghost use Rattle.flows.specs.Laps.{moved, sent};
ghost use Rattle.labels.specs.Good.{Labelled, count};
ghost use Rattle.labels.specs.Searches.{Searching};
ghost use Rattle.labels.specs.Ways.{Backward, Trail, RoomIs, Moving, LeastRoom, Steady, GoneRound};

use crate::labelling::Labels;
use crate::moves::limit;
use arrayvec::ArrayVec;
use flows::{Step, View};
use networks::{Bounds, MOST_NODES, Network};

// The chosen step, and then the steps from the source to the node at a place.
fn trace(labels: &Labels, place: usize, chosen: Step) -> ArrayVec<Step, MOST_NODES>
    requires back { Backward labels.now }
    requires few { count labels.now ≤ most_nodes }
    requires place { place < count labels.now }
    ensures { Trail labels.now chosen place result.items }
{
    let mut steps = ArrayVec::new();
    let mut k = place;
    while k > 0 {
        let entry = labels.entry(k);
        steps.push(entry.step);
        k = entry.parent;
    }
    steps.push(chosen);
    steps.as_mut_slice().reverse();
    steps
}

// What is left from f up to the limit, or down to it.
fn span(limit: i32, f: i32, along: bool) -> i32
    requires limit { unsigned_abs limit ≤ flow_limit }
    requires f { unsigned_abs f ≤ flow_limit }
    ensures { result ≡ (if along then limit -ℤ f else f -ℤ limit) }
{
    if along { limit - f } else { f - limit }
}

// By how much the step's arc may be moved that way.
fn room<N: Network>(view: &View<N>, step: Step) -> i32
    requires small { Small view.now.flow.now }
    requires arc { step.arc < length view.now.flow.now }
    ensures { RoomIs N.Cost.CostKind.kind (shown (N.meaning view.now.net.now)) view.now.flow.now view.now.prices.now step result }
{
    let seen = view.see(step.arc, view.arc(step.arc));
    span(limit(seen, step.along), seen.flow, step.along)
}

// The least room over the steps.
fn least_room<N: Network>(view: &View<N>, steps: &[Step]) -> i32
    requires some { 1 ≤ length steps.now }
    requires small { Small view.now.flow.now }
    requires moving { AllByRecursion (Moving N.Cost.CostKind.kind (shown (N.meaning view.now.net.now)) view.now.flow.now view.now.prices.now) steps.now }
    ensures low { pos 1 ≤ℤ result }
    ensures high { result ≤ℤ pos 2000000 }
    ensures least { LeastRoom N.Cost.CostKind.kind (shown (N.meaning view.now.net.now)) view.now.flow.now view.now.prices.now steps.now result }
{
    steps.iter().fold(2 * Bounds::LIMIT, |least, step| {
        least.min(room(view, *step))
    })
}

// Moves the flow of the step's arc by an amount.
fn shift(flow: &mut [i32], step: Step, amount: i32)
    requires arc { step.arc < length flow.old }
    requires small { unsigned_abs (moved amount step flow.old) ≤ flow_limit }
    ensures { flow.new ≡ slice_set flow.old step.arc (moved amount step flow.old) }
{
    let f = flow[step.arc];
    flow[step.arc] = if step.along { f + amount } else { f - amount };
}

// Moves the flow by an amount over each of the steps.
fn send(flow: &mut [i32], steps: &[Step], amount: i32)
    requires { Steady amount steps.now flow.old }
    ensures { flow.new ≡ sent amount steps.now flow.old }
{
    for step in steps {
        shift(flow, *step, amount);
    }
}

// Goes round once: over the chosen arc and back by the labels, with as much as there is room for.
pub fn lap<N: Network>(net: &N, flow: &mut [i32], prices: &[N::Cost], chosen: Step, labels: &Labels)
    requires searching { Searching N.Cost.CostKind.kind (shown (N.meaning net.now)) flow.old prices.now chosen labels.now }
    requires moderate { Bounded N.Cost.CostKind.kind price_limit prices.now }
    requires small { Small flow.old }
    requires reached { Labelled labels.now chosen.node }
    ensures { GoneRound N.Cost.CostKind.kind (shown (N.meaning net.now)) prices.now flow.old flow.new }
{
    let steps = trace(labels, labels.place(chosen.node).unwrap(), chosen);
    let amount = least_room(&View { net, flow, prices }, steps.as_slice());
    send(flow, steps.as_slice(), amount);
}
