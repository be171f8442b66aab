// The calls that change the flow: settle, and take up an offered one. Both only ask the network.

ghost use Rattle.std.specs.Prelude.{◌≡◌, ℕ, length};
ghost use Rattle.runs.specs.States.{state};
ghost use Rattle.runs.specs.Events.{settle as settle_call, take_up as take_up_of, event};
ghost use Rattle.plans.specs.Keeping.{settle_came, done_came, Keeps};

use costs::CostKind;
use flows::take_up_stop;
use networks::{Network, Stop};
use search::Answer;

// Searches for a least-cost flow with the plan's needs, by at most that many laps.
pub fn settle<N: Network>(
    net: &N,
    flow: &mut [i32],
    needs: &[i32],
    prices: &mut [N::Cost],
    marks: &mut [u8],
    budget: u32,
) -> Result<Answer<N::Cost>, Stop>
    ensures { Keeps N.Cost.CostKind.kind (state (N.meaning net.now) flow.old needs.now prices.old marks.old) (event (settle_call budget) (settle_came result)) (state (N.meaning net.now) flow.new needs.now prices.new marks.new) }
{
    search::settle(net, flow, needs, prices, marks, budget)
}

// Copies one flow into another of its length.
fn copy(to: &mut [i32], from: &[i32])
    requires { length to.old ≡ length from.now }
    ensures { to.new ≡ from.now }
{
    to.copy_from_slice(from);
}

// Takes an offered flow as the plan's, if it has the plan's needs.
pub fn take_up<N: Network>(
    net: &N,
    flow: &mut [i32],
    needs: &[i32],
    prices: &[N::Cost],
    marks: &[u8],
    offered: &[i32],
) -> Result<(), Stop>
    ensures { Keeps N.Cost.CostKind.kind (state (N.meaning net.now) flow.old needs.now prices.now marks.now) (event (take_up_of offered.now) (done_came result)) (state (N.meaning net.now) flow.new needs.now prices.now marks.now) }
{
    take_up_stop(net, flow.len(), offered, needs, prices.len(), marks.len())?;
    copy(flow, offered);
    Ok(())
}
