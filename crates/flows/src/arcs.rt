// The arcs of a network in turn.

ghost use Rattle.std.specs.Prelude.{◌≡◌, length, drop};
ghost use Rattle.std.specs.Iterator.{YieldsFirst, item_count};
ghost use Rattle.networks.specs.Nets.{shown};

use networks::{Arc, Network};

// The arcs that are still to come: those after the first `given`.
#[derive(Drop)]
pub struct Arcs<'a, N: Network> {
    net: &'a N,
    given: usize,
    count: usize,
    ghost counted: { count ≡ length (N.meaning net.now).arcs },
}

// The arcs of a network from the first on, as they show.
pub fn arcs_of<N: Network>(net: &N) -> Arcs<'_, N>
    ensures { drop result.given (shown (N.meaning result.net.now)) ≡ shown (N.meaning net.now) }
{
    Arcs {
        net,
        given: 0,
        count: net.arcs(),
    }
}

impl<N: Network> Iterator for Arcs<'_, N> {
    type Item = Arc<N::Cost>;

    ghost next_gives = { YieldsFirst (λ s. drop s.given (shown (N.meaning s.net.now))) };

    ghost remaining = { item_count (λ s. drop s.given (shown (N.meaning s.net.now))) };

    fn next(&mut self) -> Option<Arc<N::Cost>> {
        if self.given >= self.count {
            return None;
        }
        self.given += 1;
        self.net.arc(self.given)
    }
}
