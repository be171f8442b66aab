// What a search for a lap goes by: a view, and the step that the lap is to begin with.

ghost use Rattle.std.specs.Prelude.{◌≤◌, length};
ghost use Rattle.networks.specs.Limits.{most_nodes};

use flows::{Step, View};
use networks::Network;

// The step over the chosen arc. What it leads to is the source, and the node that it sets out from is sought.
#[derive(Drop)]
pub struct Aim<'a, N: Network> {
    pub view: View<'a, N>,
    pub chosen: Step,
    ghost few: { length view.prices.now ≤ most_nodes },
    ghost sought: { (1 ≤ chosen.node) × (chosen.node ≤ length view.prices.now) },
}
