//! Which stop comes first where a plan is to be passed.

ghost use Rattle.std.specs.Prelude.{◌≡◌, ℕ, length};
ghost use Rattle.networks.specs.Answers.{refusal};
ghost use Rattle.networks.specs.Nets.{shown};
ghost use Rattle.flows.specs.Passing.{prices_stop, kilter_stop, pass_stop as pass_stop_of};

use crate::kilter::amiss;
use crate::stops::first_stop;
use crate::views::View;
use costs::CostKind;
use networks::{Network, Stop};

// The largest size of a price of a passed plan: 255 arcs, each at the largest cost, lead from any node to any other.
const PRICE_LIMIT: u64 = 255_000_000;

// The first node whose price is too large.
fn prices_fault<C: CostKind>(prices: &[C]) -> Result<(), Stop>
    ensures { refusal result ≡ prices_stop C.CostKind.kind.size 1 prices.now }
{
    for (i, price) in prices.iter().enumerate() {
        if price.size() > PRICE_LIMIT {
            return Err(Stop::Cost(i + 1));
        }
    }
    Ok(())
}

// The first arc that is out of kilter.
fn kilter_fault<N: Network>(view: &View<N>) -> Result<(), Stop>
    ensures { refusal result ≡ kilter_stop N.Cost.CostKind.kind view.now.prices.now 1
        (shown (N.meaning view.now.net.now)) view.now.flow.now }
{
    for i in 0..view.flow.len() {
        let seen = view.see(i, view.arc(i));
        if amiss(seen).is_some() {
            return Err(Stop::Kilter(i + 1));
        }
    }
    Ok(())
}

/// The first stop of a pass, if there is one: those of a settle (1 to 7), then 4 at the first node whose price
/// has a size above 255,000,000, then 14 at the first arc that is out of kilter at these prices.
pub fn pass_stop<N: Network>(
    net: &N,
    flow: &[i32],
    needs: &[i32],
    prices: &[N::Cost],
    marks: &[u8],
) -> Result<(), Stop>
    ensures { refusal result ≡ pass_stop_of N.Cost.CostKind.kind (N.meaning net.now)
        flow.now needs.now prices.now (length marks.now) }
{
    first_stop(net, flow, needs, prices.len(), marks.len())?;
    prices_fault(prices)?;
    kilter_fault(&View { net, flow, prices })
}
