//! A network of plain edges with a flow, and the cancelling of its cycles.

use crate::Weight;
use std::alloc::{AllocError, Global};

/// An arc by plain numbers: nodes from 1, bounds and flow in watt-hours.
#[derive(Clone, Copy, Debug, PartialEq, Eq)]
pub struct Edge {
    pub from: usize,
    pub to: usize,
    pub lo: i64,
    pub hi: i64,
    pub cost: Weight,
    pub flow: i64,
}

/// What came of it.
#[derive(Clone, Copy, Debug, PartialEq, Eq)]
pub enum Found {
    /// No cycle is left, and every flow is within its bounds: the total.
    Least(Weight),
    /// No cycle is left, and some flow is outside its bounds.
    None,
    /// Cycles were left when the rounds were used up.
    Unfinished,
}

// A step over an edge: along it or against it.
#[derive(Clone, Copy)]
struct Hop {
    edge: usize,
    along: bool,
}

impl Edge {
    // What a unit more along the edge weighs and how many may go; none where they may not.
    fn along(&self) -> Option<(Weight, i64)> {
        if self.flow < self.lo {
            let nearer = Weight {
                outside: -1,
                ..self.cost
            };
            return Some((nearer, self.lo.wrapping_sub(self.flow)));
        }
        (self.flow < self.hi).then_some((self.cost, self.hi.wrapping_sub(self.flow)))
    }

    // The same of a unit less.
    fn against(&self) -> Option<(Weight, i64)> {
        let back = self.cost.times(-1);
        if self.flow > self.hi {
            let nearer = Weight {
                outside: -1,
                ..back
            };
            return Some((nearer, self.flow.wrapping_sub(self.hi)));
        }
        (self.flow > self.lo).then_some((back, self.flow.wrapping_sub(self.lo)))
    }

    fn way(&self, along: bool) -> Option<(Weight, i64)> {
        if along { self.along() } else { self.against() }
    }

    fn ends(&self, along: bool) -> (usize, usize) {
        if along {
            (self.from, self.to)
        } else {
            (self.to, self.from)
        }
    }
}

/// A network of plain edges.
#[derive(Drop)]
pub struct Graph {
    nodes: usize,
    edges: Vec<Edge>,
}

impl Graph {
    /// A network of so many nodes, at most 1,024, with no edge.
    pub fn new(heap: Global, nodes: usize) -> Graph {
        Graph {
            nodes: nodes.min(1024),
            edges: Vec::new(heap),
        }
    }

    /// One edge more.
    pub fn push(&mut self, edge: Edge) -> Result<(), AllocError> {
        Ok(self.edges.push(edge)?)
    }

    pub fn edges(&self) -> &[Edge] {
        &self.edges
    }

    /// Cancels cycles of negative weight, at most so many, and answers what is then known.
    pub fn settle(&mut self, heap: Global, rounds: u32) -> Result<Found, AllocError> {
        let mut reached = vec![in heap; Weight::ZERO; self.nodes]?;
        let mut hops = vec![in heap; None; self.nodes]?;
        for _ in 0..rounds {
            reached.fill(Weight::ZERO);
            hops.fill(None);
            let Some(node) = relax_all(&self.edges, &mut reached, &mut hops) else {
                return Ok(outcome(&self.edges));
            };
            cancel(&mut self.edges, &hops, node);
        }
        Ok(Found::Unfinished)
    }
}

// Passes over all edges until nothing changes, at most one for each node; a node whose weight still falls in
// the last pass lies on a cycle of negative weight, or behind one.
fn relax_all(edges: &[Edge], reached: &mut [Weight], hops: &mut [Option<Hop>]) -> Option<usize> {
    let mut last = None;
    for _ in 0..=reached.len() {
        last = relax(edges, reached, hops);
        last?;
    }
    last
}

// One pass; answers a node whose weight fell.
fn relax(edges: &[Edge], reached: &mut [Weight], hops: &mut [Option<Hop>]) -> Option<usize> {
    let mut fallen = None;
    for (i, edge) in edges.iter().enumerate() {
        fallen = relax_edge(i, edge, true, reached, hops).or(fallen);
        fallen = relax_edge(i, edge, false, reached, hops).or(fallen);
    }
    fallen
}

// One edge in one direction: where its end is reached at a lower weight, the hop is kept.
fn relax_edge(
    i: usize,
    edge: &Edge,
    along: bool,
    reached: &mut [Weight],
    hops: &mut [Option<Hop>],
) -> Option<usize> {
    let (weight, _) = edge.way(along)?;
    let (from, to) = edge.ends(along);
    let through = reached.get(from.checked_sub(1)?)?.plus(weight);
    let place = to.checked_sub(1)?;
    let known = reached.get_mut(place)?;
    if through >= *known {
        return None;
    }
    *known = through;
    *hops.get_mut(place)? = Some(Hop { edge: i, along });
    Some(to)
}

// The hop that leads to a node, and where it sets out from.
fn hop_to(edges: &[Edge], hops: &[Option<Hop>], node: usize) -> Option<(Hop, usize)> {
    let hop = (*hops.get(node.checked_sub(1)?)?)?;
    Some((hop, edges.get(hop.edge)?.ends(hop.along).0))
}

// A node on the cycle: so many hops back from a node there is no other way.
fn on_cycle(edges: &[Edge], hops: &[Option<Hop>], node: usize) -> usize {
    let mut at = node;
    for _ in 0..hops.len() {
        at = hop_to(edges, hops, at).map_or(at, |(_, before)| before);
    }
    at
}

// The least room on the cycle through a node.
fn room(edges: &[Edge], hops: &[Option<Hop>], start: usize) -> i64 {
    let mut at = start;
    let mut least = i64::MAX;
    for _ in 0..hops.len() {
        let Some((hop, before)) = hop_to(edges, hops, at) else {
            return 0;
        };
        let way = edges.get(hop.edge).and_then(|edge| edge.way(hop.along));
        least = least.min(way.map_or(0, |(_, room)| room));
        at = before;
        if at == start {
            return least;
        }
    }
    0
}

// Sends the least room around the cycle that a node lies on or behind.
fn cancel(edges: &mut [Edge], hops: &[Option<Hop>], node: usize) {
    let start = on_cycle(edges, hops, node);
    let amount = room(edges, hops, start);
    let mut at = start;
    for _ in 0..hops.len() {
        let Some((hop, before)) = hop_to(edges, hops, at) else {
            return;
        };
        if let Some(edge) = edges.get_mut(hop.edge) {
            let signed = if hop.along {
                amount
            } else {
                amount.wrapping_neg()
            };
            edge.flow = edge.flow.wrapping_add(signed);
        }
        at = before;
        if at == start {
            return;
        }
    }
}

// What is known where no cycle is left.
fn outcome(edges: &[Edge]) -> Found {
    let mut total = Weight::ZERO;
    for edge in edges {
        if edge.flow < edge.lo || edge.flow > edge.hi {
            return Found::None;
        }
        total = total.plus(edge.cost.times(edge.flow));
    }
    Found::Least(total)
}
