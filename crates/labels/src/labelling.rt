// The labelling: nodes that a change of flow can reach from the source, each with the step that leads to it.

ghost use Rattle.std.specs.Prelude.{◌≡◌, ◌≢◌, ℕ, ◌<◌, ◌≤◌, false, nat_lt};
ghost use Rattle.networks.specs.Limits.{most_nodes};
ghost use Rattle.networks.specs.Nets.{shown, IsAt};
ghost use Rattle.flows.specs.Flows.{Ends};
ghost use Rattle.flows.specs.Laps.{far};
ghost use Rattle.labels.specs.Good.{Begun, Good, Grown, Followed, AllFollowed, count, entry_at, place_at, place_of, pushed, linked_by, outward_at};

use crate::Aim;
use crate::moves::may;
use arrayvec::ArrayVec;
use costs::CostKind;
use flows::{Step, arcs_of, far_end};
use networks::{Arc, MOST_NODES, Network};

// A labelled node: the place of the node it was labelled from, and the step that leads here from there.
#[derive(Clone, Copy, Debug, Default, PartialEq, Eq)]
pub struct Entry {
    pub node: usize,
    pub parent: usize,
    pub step: Step,
}

// The labelled nodes in the order of their labelling, and for each node its place there, counted from 1, or 0.
#[derive(Drop)]
pub struct Labels {
    pub places: [usize; MOST_NODES],
    pub entries: ArrayVec<Entry, MOST_NODES>,
}

impl Labels {
    // A labelling of the source alone.
    pub fn begin(source: usize) -> Labels
        requires { (1 ≤ source) × (source ≤ most_nodes) }
        ensures { Begun source result }
    {
        let mut labels = Labels {
            places: [0; MOST_NODES],
            entries: ArrayVec::new(),
        };
        labels.push(Entry {
            node: source,
            ..Entry::default()
        });
        labels
    }

    // The place of a node among the labelled, counted from 0; none where it is not labelled.
    pub fn place(&self, node: usize) -> Option<usize>
        requires { (1 ≤ node) × (node ≤ most_nodes) }
        ensures { result ≡ place_at self.now node }
    {
        self.places[node - 1].checked_sub(1)
    }

    // The node at a place, counted from 0.
    pub fn entry(&self, k: usize) -> Entry
        requires { k < count self.now }
        ensures { result ≡ entry_at self.now k }
    {
        self.entries[k]
    }

    // Labels one node more.
    pub fn push(&mut self, entry: Entry)
        requires room { count self.old < most_nodes }
        requires node { (1 ≤ entry.node) × (entry.node ≤ most_nodes) }
        ensures { self.new ≡ pushed self.old entry }
    {
        self.places[entry.node - 1] = self.entries.len() + 1;
        self.entries.push(entry);
    }

    // Labels what the step over an arc leads to, from the node at a place.
    pub fn link<C: CostKind>(&mut self, arc: Arc<C>, step: Step, parent: usize)
        requires room { count self.old < most_nodes }
        requires node { (1 ≤ far arc step.along) × (far arc step.along ≤ most_nodes) }
        ensures { self.new ≡ pushed self.old (linked_by arc step parent) }
    {
        self.push(Entry {
            node: far_end(arc, step.along),
            parent,
            step,
        });
    }
}

// The way over the arc from the node to one that is not labelled.
fn outward<C: CostKind>(arc: Arc<C>, node: usize, labels: &Labels) -> Option<bool>
    requires { Ends most_nodes arc }
    ensures { result ≡ outward_at arc node labels.now }
{
    if arc.from == node && labels.place(arc.to).is_none() {
        Some(true)
    } else if arc.from != node && arc.to == node && labels.place(arc.from).is_none() {
        Some(false)
    } else {
        None
    }
}

// Labels the far end of the arc at i, from the node at a place, where the arc may move there and the end is not labelled.
#[inline(always)]
fn extend<N: Network>(aim: &Aim<N>, i: usize, arc: Arc<N::Cost>, at: usize, labels: &mut Labels)
    requires good { Good N.Cost.CostKind.kind (shown (N.meaning aim.now.view.net.now)) aim.now.view.flow.now aim.now.view.prices.now aim.now.chosen.arc labels.old }
    requires arc { IsAt (shown (N.meaning aim.now.view.net.now)) i arc }
    requires place { at < count labels.old }
    ensures good { Good N.Cost.CostKind.kind (shown (N.meaning aim.now.view.net.now)) aim.now.view.flow.now aim.now.view.prices.now aim.now.chosen.arc labels.new }
    ensures grown { Grown labels.old labels.new }
    ensures followed { i ≢ aim.now.chosen.arc → Followed N.Cost.CostKind.kind (shown (N.meaning aim.now.view.net.now)) aim.now.view.flow.now aim.now.view.prices.now labels.new at i }
{
    if i == aim.chosen.arc {
        return;
    }
    let node = labels.entry(at).node;
    let Some(along) = outward(arc, node, labels) else {
        return;
    };
    if may(aim.view.see(i, arc), along) {
        labels.link(arc, Step::over(i, arc, along), at);
    }
}

// Labels what one arc leads to from the node at a place, arc after arc, until the sought node is labelled; says whether it is.
fn spread<N: Network>(aim: &Aim<N>, at: usize, labels: &mut Labels) -> bool
    requires good { Good N.Cost.CostKind.kind (shown (N.meaning aim.now.view.net.now)) aim.now.view.flow.now aim.now.view.prices.now aim.now.chosen.arc labels.old }
    requires place { at < count labels.old }
    ensures good { Good N.Cost.CostKind.kind (shown (N.meaning aim.now.view.net.now)) aim.now.view.flow.now aim.now.view.prices.now aim.now.chosen.arc labels.new }
    ensures grown { Grown labels.old labels.new }
    ensures found { result ≡ nat_lt 0 (place_of labels.new aim.now.chosen.node) }
    ensures all { result ≡ false → AllFollowed N.Cost.CostKind.kind (shown (N.meaning aim.now.view.net.now)) aim.now.view.flow.now aim.now.view.prices.now aim.now.chosen.arc labels.new at }
{
    for (i, arc) in arcs_of(aim.view.net).enumerate() {
        if labels.place(aim.chosen.node).is_some() {
            return true;
        }
        extend(aim, i, arc, at, labels);
    }
    labels.place(aim.chosen.node).is_some()
}

// Labels what can be reached from the nodes labelled from a place on, but not over the chosen arc, until the sought node is labelled.
fn label_from<N: Network>(aim: &Aim<N>, start: usize, labels: &mut Labels) -> bool
    requires good { Good N.Cost.CostKind.kind (shown (N.meaning aim.now.view.net.now)) aim.now.view.flow.now aim.now.view.prices.now aim.now.chosen.arc labels.old }
    ensures good { Good N.Cost.CostKind.kind (shown (N.meaning aim.now.view.net.now)) aim.now.view.flow.now aim.now.view.prices.now aim.now.chosen.arc labels.new }
    ensures grown { Grown labels.old labels.new }
    ensures found { result ≡ nat_lt 0 (place_of labels.new aim.now.chosen.node) }
    ensures all { result ≡ false → (k : ℕ) → start ≤ k → k < count labels.new → AllFollowed N.Cost.CostKind.kind (shown (N.meaning aim.now.view.net.now)) aim.now.view.flow.now aim.now.view.prices.now aim.now.chosen.arc labels.new k }
{
    let mut at = start;
    // The list grows while it is gone through.
    while at < labels.entries.len() {
        if spread(aim, at, labels) {
            return true;
        }
        at += 1;
    }
    labels.place(aim.chosen.node).is_some()
}

// Labels what the first arc leads to from the node at a place, if both are there. It stands apart, so that the
// loop over all arcs keeps `extend` in it.
#[inline(never)]
fn follow_first<N: Network>(aim: &Aim<N>, at: usize, labels: &mut Labels)
    requires { Good N.Cost.CostKind.kind (shown (N.meaning aim.now.view.net.now)) aim.now.view.flow.now aim.now.view.prices.now aim.now.chosen.arc labels.old }
    ensures good { Good N.Cost.CostKind.kind (shown (N.meaning aim.now.view.net.now)) aim.now.view.flow.now aim.now.view.prices.now aim.now.chosen.arc labels.new }
    ensures grown { Grown labels.old labels.new }
{
    if at >= labels.entries.len() || aim.view.flow.is_empty() {
        return;
    }
    extend(aim, 0, aim.view.arc(0), at, labels);
}

// Labels what can be reached from the nodes labelled from a place on, but not over the chosen arc, until the node that its step sets out from is labelled.
pub fn label<N: Network>(aim: &Aim<N>, start: usize, labels: &mut Labels) -> bool
    requires good { Good N.Cost.CostKind.kind (shown (N.meaning aim.now.view.net.now)) aim.now.view.flow.now aim.now.view.prices.now aim.now.chosen.arc labels.old }
    ensures good { Good N.Cost.CostKind.kind (shown (N.meaning aim.now.view.net.now)) aim.now.view.flow.now aim.now.view.prices.now aim.now.chosen.arc labels.new }
    ensures grown { Grown labels.old labels.new }
    ensures found { result ≡ nat_lt 0 (place_of labels.new aim.now.chosen.node) }
    ensures all { result ≡ false → (k : ℕ) → start ≤ k → k < count labels.new → AllFollowed N.Cost.CostKind.kind (shown (N.meaning aim.now.view.net.now)) aim.now.view.flow.now aim.now.view.prices.now aim.now.chosen.arc labels.new k }
{
    // One arc is followed before the sought node is looked for, which may be labelled already.
    follow_first(aim, start, labels);
    label_from(aim, start, labels)
}
