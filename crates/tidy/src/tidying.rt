// The loop that labels every node in turn and changes the prices of those that are left.

ghost use Rattle.std.specs.Prelude.{◌≡◌, length};
ghost use Rattle.networks.specs.Nets.{shown};
ghost use Rattle.tidy.specs.Picks.{unmarked, Untidy, Tidied};

use crate::picks::Marked;
use flows::raise;
use networks::{MOST_NODES, Network};

// Labels every node in turn, with marks lent for it of which none is set.
fn label_all<N: Network>(net: &N, prices: &mut [N::Cost], marks: &mut [bool])
    requires untidy { Untidy N.Cost.CostKind.kind (shown (N.meaning net.now)) prices.old }
    requires alike { length marks.old ≡ length prices.old }
    requires clear { unmarked marks.old ≡ length marks.old }
    ensures { Tidied N.Cost.CostKind.kind (shown (N.meaning net.now)) prices.old prices.new }
{
    for _ in 0..prices.len() {
        let p = Marked { net, prices, marks }.next_pick();
        raise(prices, p.far, |i| marks[i]);
        marks[p.place] = true;
    }
}

// Makes the prices small, and turns the sign of no reduced cost.
pub fn tidy<N: Network>(net: &N, prices: &mut [N::Cost])
    requires { Untidy N.Cost.CostKind.kind (shown (N.meaning net.now)) prices.old }
    ensures { Tidied N.Cost.CostKind.kind (shown (N.meaning net.now)) prices.old prices.new }
{
    let mut marks = [false; MOST_NODES];
    let n = prices.len();
    label_all(net, prices, &mut marks[..n]);
}
