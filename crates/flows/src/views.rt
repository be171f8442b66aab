// A network with a flow and prices within the limits, as a search looks at it, and what it sees of an arc.

ghost use Rattle.std.specs.Prelude.{◌≡◌, ℕ, ◌<◌, ◌≤◌, length};
ghost use Rattle.networks.specs.Nets.{shown, IsAt};
ghost use Rattle.flows.specs.searching.Fits.{Fit, Fitting, Bounded, price_limit, change_limit};

use crate::pricing::reduced;
use costs::CostKind;
use networks::{Arc, Network};

// An arc with its reduced cost and the flow that it carries.
#[derive(Clone, Copy, Debug, PartialEq, Eq)]
pub struct Seen<C> {
    pub arc: Arc<C>,
    pub cost: C,
    pub flow: i32,
}

// What a search reads. Places of arcs count from 0.
#[derive(Drop)]
pub struct View<'a, N: Network> {
    pub net: &'a N,
    pub flow: &'a [i32],
    pub prices: &'a [N::Cost],
    ghost long: { length flow.now ≡ length (shown (N.meaning net.now)) },
    ghost fitting: { Fitting N.Cost.CostKind.kind (length prices.now) (shown (N.meaning net.now)) },
    ghost moderate: { Bounded N.Cost.CostKind.kind price_limit prices.now },
}

impl<N: Network> View<'_, N> {
    ghost use Rattle.flows.specs.searching.Views.{Sees};

    // The arc at a place.
    pub fn arc(&self, i: usize) -> Arc<N::Cost>
        requires { i < length self.now.flow.now }
        ensures is { IsAt (shown (N.meaning self.now.net.now)) i result }
        ensures fit { Fit N.Cost.CostKind.kind (length self.now.prices.now) result }
    {
        self.net.arc(i + 1).unwrap()
    }

    // What is seen of the arc at a place.
    pub fn see(&self, i: usize, arc: Arc<N::Cost>) -> Seen<N::Cost>
        requires { IsAt (shown (N.meaning self.now.net.now)) i arc }
        ensures sees { Sees N.Cost.CostKind.kind (shown (N.meaning self.now.net.now)) self.now.flow.now self.now.prices.now i result }
        ensures same { result.arc ≡ arc }
        ensures small { N.Cost.CostKind.kind.size result.cost ≤ change_limit }
    {
        Seen {
            arc,
            cost: reduced(arc, self.prices),
            flow: self.flow[i],
        }
    }
}
