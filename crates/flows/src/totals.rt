// What a flow costs.

ghost use Rattle.std.specs.Prelude.{◌≡◌, ◌≤◌, length, Some};
ghost use Rattle.costs.specs.Kinds.{sums};
ghost use Rattle.networks.specs.Limits.{most_arcs};
ghost use Rattle.networks.specs.Nets.{shown};
ghost use Rattle.flows.specs.searching.Fits.{Fitting, Small};
ghost use Rattle.flows.specs.Flows.{added as added_to, running_total, total as total_of};

use crate::arcs::arcs_of;
use costs::CostKind;
use networks::Network;

// A sum with what an arc's flow costs added, where both are in the kind's range.
fn added<C: CostKind>(sum: C, cost: C, f: i32) -> Option<C>
    ensures { result ≡ added_to (sums C.CostKind.kind) sum cost f }
{
    let product = cost.times(f)?;
    sum.plus(product)
}

// The sum of cost times flow, arc by arc as far as there are arcs and flows; absent where the sum so far or
// a product leaves the kind's range, which no flow within the limits does.
pub fn checked_total<N: Network>(net: &N, flow: &[i32]) -> Option<N::Cost>
    ensures running { result ≡ running_total (sums N.Cost.CostKind.kind) N.Cost.CostKind.kind.zero (shown (N.meaning net.now)) flow.now }
    ensures within { length flow.now ≤ most_arcs → Fitting N.Cost.CostKind.kind (N.meaning net.now).nodes (shown (N.meaning net.now)) → Small flow.now → result ≡ Some (total_of (sums N.Cost.CostKind.kind) (shown (N.meaning net.now)) flow.now) }
{
    arcs_of(net)
        .zip(flow)
        .try_fold(N::Cost::zero(), |all, (arc, f)| added(all, arc.cost, *f))
}

// The sum of cost times flow, within the limits.
pub fn total<N: Network>(net: &N, flow: &[i32]) -> N::Cost
    requires few { length flow.now ≤ most_arcs }
    requires fitting { Fitting N.Cost.CostKind.kind (N.meaning net.now).nodes (shown (N.meaning net.now)) }
    requires small { Small flow.now }
    ensures { result ≡ total_of (sums N.Cost.CostKind.kind) (shown (N.meaning net.now)) flow.now }
{
    checked_total(net, flow).unwrap()
}
