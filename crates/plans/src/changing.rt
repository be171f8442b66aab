// The calls that change the network: rebound and recost ask the top of the pile, take-out and hand-back one lock-out in it.

ghost use Rattle.std.specs.Prelude.{◌≡◌, ℕ};
ghost use Rattle.networks.specs.Nets.{take_out_stop, hand_back_stop};
ghost use Rattle.networks.specs.Answers.{answer, said, tagged, returned, answer_back};
ghost use Rattle.runs.specs.Events.{rebound as rebound_call, recost as recost_call, take_out, hand_back as hand_back_of, event};
ghost use Rattle.plans.specs.Keeping.{done_came, back_came, KeepsTables};

use costs::CostKind;
use networks::{Bounds, Network, Stop, Tag};

// Replaces the bounds of an arc.
pub fn rebound<N: Network>(net: &mut N, arc: usize, bounds: Bounds) -> Result<(), Stop>
    ensures keeps { KeepsTables N.Cost.CostKind.kind (N.meaning net.old) (event (rebound_call arc bounds.lo bounds.hi) (done_came result)) (N.meaning net.new) }
    ensures same_references { N.references net.new ≡ N.references net.old }
{
    net.rebound(arc, bounds)
}

// Replaces the cost of an arc.
pub fn recost<N: Network>(net: &mut N, arc: usize, cost: N::Cost) -> Result<(), Stop>
    ensures keeps { KeepsTables N.Cost.CostKind.kind (N.meaning net.old) (event (recost_call arc cost) (done_came result)) (N.meaning net.new) }
    ensures same_references { N.references net.new ≡ N.references net.old }
{
    net.recost(arc, cost)
}

// Takes an arc out at a lock-out; the tag names it.
pub fn take_out<N: Network>(net: &mut N, layer: usize, arc: usize) -> Result<Tag, Stop>
    ensures tag { said (tagged result) ≡ answer (take_out_stop (N.meaning net.old) layer arc) arc }
    ensures keeps { KeepsTables N.Cost.CostKind.kind (N.meaning net.old) (event (take_out layer arc) (done_came result)) (N.meaning net.new) }
    ensures same_references { N.references net.new ≡ N.references net.old }
{
    net.take_out(layer, arc)
}

// Hands an arc back at a lock-out, or gives the tag back.
pub fn hand_back<N: Network>(net: &mut N, layer: usize, tag: Tag) -> Result<(), (Stop, Tag)>
    ensures tag { returned result ≡ answer_back (hand_back_stop (N.meaning net.old) layer tag.arc) tag }
    ensures keeps { KeepsTables N.Cost.CostKind.kind (N.meaning net.old) (event (hand_back_of layer tag.arc) (back_came result)) (N.meaning net.new) }
    ensures same_references { N.references net.new ≡ N.references net.old }
{
    net.hand_back(layer, tag)
}
