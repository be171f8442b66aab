// Out of kilter: the four tests, and the way in which the flow has to move.

ghost use Rattle.std.specs.Prelude.{◌≡◌, is_some};
ghost use Rattle.flows.specs.Kilter.{out_of_kilter, way};

use crate::views::Seen;
use costs::CostKind;

// The way in which an arc has to move: along or against; none where it is in kilter.
pub fn amiss<C: CostKind>(seen: Seen<C>) -> Option<bool>
    ensures way { result ≡ way C.CostKind.kind seen.cost seen.arc seen.flow }
    ensures test { is_some result ≡ out_of_kilter C.CostKind.kind seen.cost seen.arc seen.flow }
{
    let Seen {
        arc,
        cost: c,
        flow: f,
    } = seen;
    if f < arc.lo {
        return Some(true);
    }
    if f > arc.hi {
        return Some(false);
    }
    if !C::zero().at_most(c) && f < arc.hi {
        return Some(true);
    }
    if !c.at_most(C::zero()) && f > arc.lo {
        return Some(false);
    }
    None
}
