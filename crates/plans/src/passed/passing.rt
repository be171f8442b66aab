//! Pass: a plan that nothing refuses is passed.

ghost use Rattle.std.specs.Prelude.{◌≡◌, length, IfOk, OnOk};
ghost use Rattle.networks.specs.Answers.{refusal};
ghost use Rattle.runs.specs.States.{state};
ghost use Rattle.plans.specs.Passing.{passing_stop, IsLeast, PassesAfterLeast};
ghost use Rattle.plans.specs.Orders.{Shows};

use super::Passed;
use costs::CostKind;
use flows::pass_stop;
use networks::{Network, Stop};

/// Passes a plan that nothing refuses: the stops of a settle (1, 2, then arc by arc 3, 4, 7, 5, then 6 by
/// node), then 4 at the first node whose price has a size above 255,000,000, then 14 at the first arc that is
/// out of kilter at these prices. What is passed is within the bounds and least.
pub fn pass<'a, N: Network>(
    net: &'a N,
    flow: &'a [i32],
    needs: &[i32],
    prices: &'a [N::Cost],
    marks: &[u8],
) -> Result<Passed<'a, N>, Stop>
    ensures stops { refusal result ≡ passing_stop N.Cost.CostKind.kind
        (state (N.meaning net.now) flow.now needs.now prices.now marks.now) }
    ensures shows { IfOk result (Shows flow.now prices.now) }
    ensures least { OnOk result (IsLeast N.Cost.CostKind.kind
        (state (N.meaning net.now) flow.now needs.now prices.now marks.now)) }
    ensures after_least { PassesAfterLeast N.Cost.CostKind.kind
        (state (N.meaning net.now) flow.now needs.now prices.now marks.now) }
{
    pass_stop(net, flow, needs, prices, marks)?;
    Ok(Passed { net, flow, prices })
}
