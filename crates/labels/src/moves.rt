// Which way an arc may move, and how far.

ghost use Rattle.std.specs.Prelude.{◌≡◌};
ghost use Rattle.labels.specs.Moves.{limit_at, may_at};

use costs::CostKind;
use flows::Seen;

// How far an arc is moved at most, along or against.
pub fn limit<C: CostKind>(seen: Seen<C>, along: bool) -> i32
    ensures { result ≡ limit_at C.CostKind.kind seen.cost seen.arc along }
{
    let Seen { arc, cost, .. } = seen;
    if along {
        if cost.at_most(C::zero()) {
            arc.hi
        } else {
            arc.lo
        }
    } else if C::zero().at_most(cost) {
        arc.lo
    } else {
        arc.hi
    }
}

// Whether an arc may be moved that way: it is short of its limit.
pub fn may<C: CostKind>(seen: Seen<C>, along: bool) -> bool
    ensures { result ≡ may_at C.CostKind.kind seen.cost seen.arc along seen.flow }
{
    if along {
        seen.flow < limit(seen, true)
    } else {
        limit(seen, false) < seen.flow
    }
}
