// Open: a plan begins with the imbalances of its flow as its needs.

ghost use Rattle.std.specs.Prelude.{◌≡◌, ℕ, Ok};
ghost use Rattle.networks.specs.Answers.{refusal, unless};
ghost use Rattle.runs.specs.States.{state, opening_stop, opened, New};

use costs::CostKind;
use flows::{imbalances, open_stop};
use networks::{Network, Stop};

// Opens a plan at this flow: writes the imbalance of each node into the needs table.
pub fn open<N: Network>(
    net: &N,
    flow: &[i32],
    needs: &mut [i32],
    prices: &[N::Cost],
    marks: &[u8],
) -> Result<(), Stop>
    ensures stops { refusal result ≡ opening_stop N.Cost.CostKind.kind (state (N.meaning net.now) flow.now needs.old prices.now marks.now) }
    ensures leaves { state (N.meaning net.now) flow.now needs.new prices.now marks.now ≡ unless (opening_stop N.Cost.CostKind.kind (state (N.meaning net.now) flow.now needs.old prices.now marks.now)) (state (N.meaning net.now) flow.now needs.old prices.now marks.now) (opened (state (N.meaning net.now) flow.now needs.old prices.now marks.now)) }
    ensures new { result ≡ Ok tt → New N.Cost.CostKind.kind (state (N.meaning net.now) flow.now needs.new prices.now marks.now) }
{
    open_stop(net, flow, needs.len(), prices.len(), marks.len())?;
    imbalances(net, flow, needs);
    Ok(())
}
