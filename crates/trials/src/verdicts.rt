//! What a settle answered, compared with the other method and with sums made by hand.

use cancelling::{Edge, Found, Graph, Weight};
use costs::CostKind;
use files::FileCost;
use networks::Network;
use plans::pass;
use search::Answer;
use std::alloc::{AllocError, Global};

/// The most cycles that the other method cancels.
const ROUNDS: u32 = 20_000;

/// The tables of a plan.
#[derive(Drop)]
pub struct Plan<C> {
    pub flow: Vec<i32>,
    pub needs: Vec<i32>,
    pub prices: Vec<C>,
    pub marks: Vec<u8>,
}

/// A cost as the other method weighs it.
pub fn weight_of<C: FileCost>(cost: C) -> Weight {
    Weight::of_cost(cost.first(), cost.second())
}

/// A network, as it shows, with a flow, as plain edges.
pub fn graph_of<N: Network>(heap: Global, net: &N, flow: &[i32]) -> Result<Graph, AllocError>
where
    N::Cost: FileCost,
{
    let mut graph = Graph::new(heap, net.nodes());
    for (i, carried) in flow.iter().enumerate() {
        if let Some(arc) = net.arc(i.saturating_add(1)) {
            graph.push(Edge {
                from: arc.from,
                to: arc.to,
                lo: i64::from(arc.lo),
                hi: i64::from(arc.hi),
                cost: weight_of(arc.cost),
                flow: i64::from(*carried),
            })?;
        }
    }
    Ok(graph)
}

// What leaves a node less what enters it.
fn balance(edges: &[Edge], flow: &[i32], node: usize) -> i64 {
    let mut sum = 0i64;
    for (edge, carried) in edges.iter().zip(flow) {
        if edge.from == node {
            sum = sum.wrapping_add(i64::from(*carried));
        }
        if edge.to == node {
            sum = sum.wrapping_sub(i64::from(*carried));
        }
    }
    sum
}

// Every node's imbalance is its need.
fn is_balanced(edges: &[Edge], flow: &[i32], needs: &[i32]) -> bool {
    for (i, need) in needs.iter().enumerate() {
        if balance(edges, flow, i.saturating_add(1)) != i64::from(*need) {
            return false;
        }
    }
    true
}

// Every flow is within the bounds.
fn is_within(edges: &[Edge], flow: &[i32]) -> bool {
    edges.len() == flow.len()
        && edges.iter().zip(flow).all(|(edge, carried)| {
            edge.lo <= i64::from(*carried) && i64::from(*carried) <= edge.hi
        })
}

// A node is marked.
fn is_marked(marks: &[u8], node: usize) -> bool {
    node.checked_sub(1).and_then(|i| marks.get(i)) == Some(&1)
}

// The marked nodes need more than can leave them.
fn is_cut(edges: &[Edge], needs: &[i32], marks: &[u8]) -> bool {
    let mut room = 0i64;
    for edge in edges {
        match (is_marked(marks, edge.from), is_marked(marks, edge.to)) {
            (true, false) => room = room.wrapping_add(edge.hi),
            (false, true) => room = room.wrapping_sub(edge.lo),
            _ => {}
        }
    }
    let mut needed = 0i64;
    for (i, need) in needs.iter().enumerate() {
        if is_marked(marks, i.saturating_add(1)) {
            needed = needed.wrapping_add(i64::from(*need));
        }
    }
    room < needed
}

// No price has a size above one less than the count of nodes, times the largest cost.
fn are_small<N: Network>(net: &N, prices: &[N::Cost]) -> bool {
    let mut largest = 0u64;
    for a in 1..=net.arcs() {
        if let Some(arc) = net.arc(a) {
            largest = largest.max(arc.cost.size());
        }
    }
    let most = largest.saturating_mul(net.nodes().saturating_sub(1) as u64);
    prices.iter().all(|price| price.size() <= most)
}

/// The answer of a settle that ended, and the tables it left, agree with the other method; the plan found had
/// this flow.
pub fn agrees<N: Network>(
    heap: Global,
    net: &N,
    found: &[i32],
    plan: &Plan<N::Cost>,
    answer: Answer<N::Cost>,
) -> Result<bool, AllocError>
where
    N::Cost: FileCost,
{
    let mut graph = graph_of(heap, net, found)?;
    let other = graph.settle(heap, ROUNDS)?;
    let edges = graph.edges();
    let kept = is_balanced(edges, &plan.flow, &plan.needs) && are_small(net, &plan.prices);
    Ok(
        kept && match (answer, other) {
            (Answer::Least { total, .. }, Found::Least(weight)) => {
                weight_of(total) == weight
                    && is_within(edges, &plan.flow)
                    && pass(net, &plan.flow, &plan.needs, &plan.prices, &plan.marks).is_ok()
            }
            (Answer::None, Found::None) => is_cut(edges, &plan.needs, &plan.marks),
            _ => false,
        },
    )
}
