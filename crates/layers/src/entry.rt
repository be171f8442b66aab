// An entry of a closing: a supply or a demand at a node, with its bounds.

ghost use Rattle.std.specs.Prelude.{◌≡◌, ℕ, ◌≤◌};
ghost use Rattle.networks.specs.Limits.{most_nodes};
ghost use Rattle.layers.specs.Closings.{entry_arc};

use networks::{Arc, Bounds};

#[derive(Clone, Copy, Default)]
pub enum Side {
    // Flow that comes in at the node.
    #[default]
    Supply,
    // Flow that leaves at the node.
    Demand,
}

#[derive(Clone, Copy, Default)]
pub struct Entry {
    pub node: usize,
    pub bounds: Bounds,
    pub side: Side,
}

impl Entry {
    // The entry as an arc over so many nodes.
    pub fn as_arc<C>(self, nodes: usize, zero: C) -> Arc<C>
        requires { nodes ≤ most_nodes }
        ensures { result ≡ entry_arc nodes zero self }
    {
        let (from, to) = match self.side {
            Side::Supply => (nodes + 2, self.node),
            Side::Demand => (self.node, nodes + 1),
        };
        Arc {
            fixed: true,
            ..Arc::free(from, to, self.bounds.lo(), self.bounds.hi(), zero)
        }
    }
}
