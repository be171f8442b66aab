// An arc taken out and handed back at once leaves the network as it was.

ghost use Rattle.std.specs.Prelude.{◌≡◌, ℕ};
ghost use Rattle.networks.specs.Nets.{take_out_stop};
ghost use Rattle.networks.specs.Answers.{refusal};

use crate::{Network, Stop};

// Whether an arc can be taken out at a lock-out now. The hand-back is never refused.
pub fn try_out<N: Network>(net: &mut N, layer: usize, a: usize) -> Result<(), Stop>
    ensures answers { refusal result ≡ take_out_stop (N.meaning net.old) layer a }
    ensures same { N.meaning net.new ≡ N.meaning net.old }
    ensures same_references { N.references net.new ≡ N.references net.old }
{
    let tag = net.take_out(layer, a)?;
    net.hand_back(layer, tag).map_err(|(stop, _kept)| stop)
}
