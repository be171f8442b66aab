//! A passed plan: its switching orders and its prices can be read.

ghost use Rattle.std.specs.Prelude.{◌≡◌, length, None};
ghost use Rattle.networks.specs.Nets.{shown};
ghost use Rattle.flows.specs.Passing.{kilter_stop};

use costs::CostKind;
use networks::{Network, Stop};

mod passing;

pub use passing::pass;

/// A plan that was passed. It borrows the network, the flow and the prices, so none of them can change while
/// it is there. Only [`pass`] makes one.
#[derive(Drop)]
pub struct Passed<'a, N: Network> {
    net: &'a N,
    flow: &'a [i32],
    prices: &'a [N::Cost],
    ghost long: { length flow.now ≡ length (shown (N.meaning net.now)) },
    ghost kilter: { kilter_stop N.Cost.CostKind.kind prices.now 1 (shown (N.meaning net.now)) flow.now ≡ None },
}

impl<N: Network> Passed<'_, N> {
    ghost use Rattle.std.specs.Prelude.{◌≡◌};
    ghost use Rattle.std.specs.Option.{ok_or};
    ghost use Rattle.networks.specs.declared.stops.Stop.TheVariants.{Absent};
    ghost use Rattle.networks.specs.Nets.{numbered};
    ghost use Rattle.plans.specs.Orders.{orders_of, prices_of};

    /// The flow of an arc in watt-hours, which is its switching order; 8 at the number asked where there is no
    /// such arc.
    pub fn order(&self, arc: usize) -> Result<i32, Stop>
        ensures { result ≡ ok_or (numbered (orders_of self.now) arc) (Absent arc) }
    {
        let i = arc.checked_sub(1).ok_or(Stop::Absent(arc))?;
        self.flow.get(i).copied().ok_or(Stop::Absent(arc))
    }

    /// The price of a node; 8 at the number asked where there is no such node.
    pub fn price(&self, node: usize) -> Result<N::Cost, Stop>
        ensures { result ≡ ok_or (numbered (prices_of self.now) node) (Absent node) }
    {
        let i = node.checked_sub(1).ok_or(Stop::Absent(node))?;
        self.prices.get(i).copied().ok_or(Stop::Absent(node))
    }
}
