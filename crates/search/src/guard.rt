// The guard over a lent flow: it puts the flow back as it was saved, unless the search commits.

ghost use Rattle.std.specs.Prelude.{◌≡◌, ◌≤◌, length, IfSome};
ghost use Rattle.networks.specs.Limits.{most_arcs};
ghost use Rattle.search.specs.Settling.{restored};

use arrayvec::ArrayVec;
use networks::MOST_ARCS;

pub struct Restore<'a> {
    pub flow: &'a mut [i32],
    // Nothing once the search has committed.
    pub saved: Option<ArrayVec<i32, MOST_ARCS>>,
}

impl Drop for Restore<'_> {
    fn drop(self)
        requires { IfSome self.saved (λ s. length s.items ≡ length self.flow.now) }
        ensures { self.exit.0.now ≡ restored self.entry.saved self.entry.flow.now }
    {
        let Restore { flow, saved } = self;
        if let Some(saved) = saved {
            flow.copy_from_slice(&saved);
        }
    }
}

// A copy of the flow.
pub fn save(flow: &[i32]) -> ArrayVec<i32, MOST_ARCS>
    requires { length flow.now ≤ most_arcs }
    ensures { result.items ≡ flow.now }
{
    ArrayVec::try_from(flow).unwrap()
}
