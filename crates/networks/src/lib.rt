// Networks: nodes 1 to N, arcs 1 to A, and the lock-outs that arcs can be taken out at.
//
// `Network` states what every make and layer owes: one meaning, and answers that are read off it. Asking
// changes nothing; rebound, recost, take-out and hand-back change just what they name, and where they
// refuse they change nothing. A network stays in the references that it is kept in, so that what was lent to
// it holds in the end what it meant last; a `&mut` of a network is a network too.
//
// `Stop` is why a call refuses; `told` (specs) gives each case its number and place, and it prints as those.
// `Bounds` exist only in order and within the limits. `Lockout` stands over any network and has up to 16 of
// its arcs out; `Lockout::check` says beforehand why it cannot, and one made all the same shows nothing. A
// `Tag` stands for an arc that is out and must be handed back: only a lock-out makes or spends one, a `TagRing`
// keeps tags and gives them out by the numbers of their arcs, and the prover refuses to let one go. `try_out`
// takes an arc out and hands it back, and its contract says that this is never refused and leaves the network
// as it was.
//
// Not promised here: that the rows of a network are fit. Rows hold plain numbers, and calls on a plan
// look at them first; `check_counts` is the test of counts that they share with makes and layers. Nor that
// a lock-out is let go empty: its network is lent or owned, and a tag that outlives it still cannot be
// dropped.
#![tactic(auto)]

mod bounds;
mod limits;
mod lockout;
mod network;
mod ring;
mod stops;
mod tags;
mod trying;

pub use bounds::Bounds;
pub use limits::{COST_LIMIT, MOST_ARCS, MOST_NODES, check_counts, cost_fits};
pub use lockout::Lockout;
pub use network::{Arc, Network};
pub use ring::TagRing;
pub use stops::Stop;
pub use tags::Tag;
pub use trying::try_out;
