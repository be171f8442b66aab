// A plan that is opened and settled at once.

ghost use Rattle.runs.specs.States.{state};
ghost use Rattle.plans.specs.Lists.{SettlesNew};

use crate::opening::open;
use crate::settling::settle;
use costs::CostKind;
use networks::{Network, Stop};
use search::Answer;

// Opens a plan and settles it; a stop is open's or settle's.
pub fn settle_new<N: Network>(
    net: &N,
    flow: &mut [i32],
    needs: &mut [i32],
    prices: &mut [N::Cost],
    marks: &mut [u8],
    budget: u32,
) -> Result<Answer<N::Cost>, Stop>
    ensures { SettlesNew N.Cost.CostKind.kind (state (N.meaning net.now) flow.old needs.old prices.old marks.old) budget result (state (N.meaning net.now) flow.new needs.new prices.new marks.new) }
{
    open(net, flow, needs, prices, marks)?;
    settle(net, flow, needs, prices, marks, budget)
}
