// Which stop comes first: the checks that calls on a plan share.

ghost use Rattle.std.specs.Prelude.{◌≡◌, ℕ, ◌≤◌, ◌&&◌, length, ℤ, int_le, nat_le};
ghost use Rattle.networks.specs.Limits.{most_arcs, in_limits as in_limits_of};
ghost use Rattle.networks.specs.Answers.{refusal};
ghost use Rattle.networks.specs.Nets.{shown};
ghost use Rattle.flows.specs.Stops.{arc_stop, arcs_stop, needs_stop, first_stop as first_stop_of, open_stop as open_stop_of, take_up_stop as take_up_stop_of};

use crate::arcs::arcs_of;
use crate::balances::imbalance;
use costs::CostKind;
use networks::{Arc, Bounds, COST_LIMIT, Network, Stop, check_counts};

// Whether both ends of an arc are nodes.
fn ends_fit(nodes: usize, from: usize, to: usize) -> bool
    ensures { result ≡ ((nat_le 1 from && nat_le from nodes) && (nat_le 1 to && nat_le to nodes)) }
{
    (1..=nodes).contains(&from) && (1..=nodes).contains(&to)
}

// Whether a bound or a flow is within the limits.
fn in_limits(x: i32) -> bool
    ensures { result ≡ in_limits_of x }
{
    (-Bounds::LIMIT..=Bounds::LIMIT).contains(&x)
}

// The first fault of one arc and what it carries.
fn arc_fault<C: CostKind>(nodes: usize, a: usize, arc: Arc<C>, f: i32) -> Result<(), Stop>
    ensures { refusal result ≡ arc_stop C.CostKind.kind.size nodes a arc f }
{
    if !ends_fit(nodes, arc.from, arc.to) {
        return Err(Stop::Ends(a));
    }
    if arc.cost.size() > COST_LIMIT {
        return Err(Stop::Cost(a));
    }
    Bounds::new(arc.lo, arc.hi).or(Err(Stop::Bounds(a)))?;
    if !in_limits(f) {
        return Err(Stop::Flow(a));
    }
    Ok(())
}

// The first fault of the arcs in turn.
pub fn arcs_fault<N: Network>(net: &N, flow: &[i32]) -> Result<(), Stop>
    ensures { refusal result ≡ arcs_stop N.Cost.CostKind.kind.size (N.meaning net.now).nodes 1 (shown (N.meaning net.now)) flow.now }
{
    let nodes = net.nodes();
    for (i, (arc, f)) in arcs_of(net).zip(flow).enumerate() {
        arc_fault(nodes, i + 1, arc, *f)?;
    }
    Ok(())
}

// Whether an imbalance is the need.
fn meets(balance: i64, need: i32) -> bool
    ensures { result ≡ (int_le balance need && int_le need balance) }
{
    balance == i64::from(need)
}

// The first node whose imbalance differs from its need.
fn needs_fault<N: Network>(net: &N, flow: &[i32], needs: &[i32]) -> Result<(), Stop>
    requires few { length flow.now ≤ most_arcs }
    ensures { refusal result ≡ needs_stop (shown (N.meaning net.now)) flow.now 1 needs.now }
{
    for (i, need) in needs.iter().enumerate() {
        if !meets(imbalance(net, flow, i + 1), *need) {
            return Err(Stop::Imbalance(i + 1));
        }
    }
    Ok(())
}

// The first stop of a network with its tables, if there is one; of the prices and the marks the lengths.
pub fn first_stop<N: Network>(
    net: &N,
    flow: &[i32],
    needs: &[i32],
    prices: usize,
    marks: usize,
) -> Result<(), Stop>
    ensures { refusal result ≡ first_stop_of N.Cost.CostKind.kind.size (N.meaning net.now) flow.now needs.now prices marks }
{
    open_stop(net, flow, needs.len(), prices, marks)?;
    needs_fault(net, flow, needs)
}

// The first stop where a plan is opened at this flow; of its other tables the lengths.
pub fn open_stop<N: Network>(
    net: &N,
    flow: &[i32],
    needs: usize,
    prices: usize,
    marks: usize,
) -> Result<(), Stop>
    ensures { refusal result ≡ open_stop_of N.Cost.CostKind.kind.size (N.meaning net.now) flow.now needs prices marks }
{
    let nodes = net.nodes();
    check_counts(nodes, net.arcs())?;
    if flow.len() != net.arcs() || needs != nodes || prices != nodes || marks != nodes {
        return Err(Stop::Lengths);
    }
    arcs_fault(net, flow)
}

// The first stop where a flow is offered to a plan whose own flow has that length.
pub fn take_up_stop<N: Network>(
    net: &N,
    own: usize,
    offered: &[i32],
    needs: &[i32],
    prices: usize,
    marks: usize,
) -> Result<(), Stop>
    ensures { refusal result ≡ take_up_stop_of N.Cost.CostKind.kind.size (N.meaning net.now) own offered.now needs.now prices marks }
{
    check_counts(net.nodes(), net.arcs())?;
    if own != net.arcs() {
        return Err(Stop::Lengths);
    }
    first_stop(net, offered, needs, prices, marks)
}
