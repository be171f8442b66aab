// The arcs between the labelled nodes and the others: one that may move at once, or the one with the least slack.

ghost use Rattle.std.specs.Prelude.{◌≡◌, ℕ, ◌+◌, ◌-◌, ◌<◌, ◌≤◌, length};
ghost use Rattle.costs.specs.Kinds.{size_limit};
ghost use Rattle.networks.specs.Limits.{most_nodes};
ghost use Rattle.networks.specs.Nets.{shown, IsAt};
ghost use Rattle.flows.specs.Flows.{Ends};
ghost use Rattle.labels.specs.Good.{Labelled, count, pushed};
ghost use Rattle.reach.specs.Scans.{crossing_at, slack_at, nearer_of, sight_of, Sighted, Scanned, link_over};

use costs::CostKind;
use flows::{Seen, Step, arcs_of, opposite};
use labels::{Aim, Labels, may};
use networks::{Arc, Network};
use std::ops::ControlFlow;

// An arc that may move once the prices have risen by the slack.
#[derive(Clone, Copy)]
pub struct Best<C> {
    pub slack: C,
    pub over: Step,
}

// The way in which an arc leads from the labelled nodes to the others.
fn way_across<C: CostKind>(arc: Arc<C>, labels: &Labels) -> Option<bool>
    requires { Ends most_nodes arc }
    ensures { result ≡ crossing_at labels.now arc }
{
    match (
        labels.place(arc.from).is_some(),
        labels.place(arc.to).is_some(),
    ) {
        (true, false) => Some(true),
        (false, true) => Some(false),
        _ => None,
    }
}

// By how much prices may rise before the arc may move.
fn slack<C: CostKind>(seen: Seen<C>, along: bool) -> Option<C>
    requires { C.CostKind.kind.size seen.cost ≤ size_limit }
    ensures { result ≡ slack_at C.CostKind.kind seen.cost seen.arc along seen.flow }
{
    let Seen { arc, cost, flow } = seen;
    if along {
        (!cost.at_most(C::zero()) && flow < arc.hi).then_some(cost)
    } else {
        (!C::zero().at_most(cost) && flow > arc.lo).then(|| opposite(cost))
    }
}

fn nearer<C: CostKind>(best: Option<Best<C>>, b: Best<C>) -> Best<C>
    ensures { result ≡ nearer_of C.CostKind.kind best b }
{
    match best {
        Some(d) if d.slack.at_most(b.slack) => d,
        _ => b,
    }
}

// What an arc that leads across makes of the best so far; it ends the scan where it may move at once.
fn sight<C: CostKind>(
    seen: Seen<C>,
    over: Step,
    best: Option<Best<C>>,
) -> ControlFlow<Step, Option<Best<C>>>
    requires { C.CostKind.kind.size seen.cost ≤ size_limit }
    ensures { result ≡ sight_of C.CostKind.kind seen.cost seen.arc over seen.flow best }
{
    if may(seen, over.along) {
        return ControlFlow::Break(over);
    }
    let Some(slack) = slack(seen, over.along) else {
        return ControlFlow::Continue(best);
    };
    ControlFlow::Continue(Some(nearer(best, Best { slack, over })))
}

// Looks at the arc at i.
fn look<N: Network>(
    aim: &Aim<N>,
    labels: &Labels,
    i: usize,
    arc: Arc<N::Cost>,
    best: Option<Best<N::Cost>>,
) -> ControlFlow<Step, Option<Best<N::Cost>>>
    requires arc { IsAt (shown (N.meaning aim.now.view.net.now)) i arc }
    requires sighted { Sighted N.Cost.CostKind.kind (shown (N.meaning aim.now.view.net.now)) aim.now.view.flow.now aim.now.view.prices.now aim.now.chosen.arc labels.now i best }
    ensures { Scanned N.Cost.CostKind.kind (shown (N.meaning aim.now.view.net.now)) aim.now.view.flow.now aim.now.view.prices.now aim.now.chosen.arc labels.now (i + 1) result }
{
    if i == aim.chosen.arc {
        return ControlFlow::Continue(best);
    }
    let Some(along) = way_across(arc, labels) else {
        return ControlFlow::Continue(best);
    };
    sight(aim.view.see(i, arc), Step::over(i, arc, along), best)
}

// Looks at every arc between the labelled nodes and the others.
pub fn look_round<N: Network>(
    aim: &Aim<N>,
    labels: &Labels,
) -> ControlFlow<Step, Option<Best<N::Cost>>>
    ensures { Scanned N.Cost.CostKind.kind (shown (N.meaning aim.now.view.net.now)) aim.now.view.flow.now aim.now.view.prices.now aim.now.chosen.arc labels.now (length (shown (N.meaning aim.now.view.net.now))) result }
{
    let mut best = None;
    for (i, arc) in arcs_of(aim.view.net).enumerate() {
        best = look(aim, labels, i, arc, best)?;
    }
    ControlFlow::Continue(best)
}

// Labels the far end of an arc that leads across.
pub fn link<C: CostKind>(arc: Arc<C>, over: Step, labels: &mut Labels)
    requires ends { Ends most_nodes arc }
    requires node { (1 ≤ over.node) × (over.node ≤ most_nodes) }
    requires near { Labelled labels.old over.node }
    requires room { count labels.old < most_nodes }
    ensures { labels.new ≡ pushed labels.old (link_over labels.old arc over) }
{
    let parent = labels.place(over.node).unwrap();
    labels.link(arc, over, parent);
}
