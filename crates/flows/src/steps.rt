// A step of a chain of arcs: it sets out from a node, along an arc or against it. The arc goes by its place in the list, from 0.

ghost use Rattle.std.specs.Prelude.{◌≡◌};
ghost use Rattle.flows.specs.Laps.{far, step_over};

use costs::CostKind;
use networks::Arc;

#[derive(Clone, Copy, Debug, Default, PartialEq, Eq)]
pub struct Step {
    pub node: usize,
    pub arc: usize,
    pub along: bool,
}

impl Step {
    // The step over the arc at a place.
    pub fn over<C: CostKind>(i: usize, arc: Arc<C>, along: bool) -> Step
        ensures { result ≡ step_over i arc along }
    {
        Step {
            node: far_end(arc, !along),
            arc: i,
            along,
        }
    }
}

// Where a step over the arc leads.
pub fn far_end<C: CostKind>(arc: Arc<C>, along: bool) -> usize
    ensures { result ≡ far arc along }
{
    if along { arc.to } else { arc.from }
}
