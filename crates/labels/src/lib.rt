// Labels: the nodes that a change of flow can reach, and the lap that they lead to.
//
// `label` labels nodes from a source over arcs that may move, each with the step that leads to it from an
// earlier one. `lap` goes from the sought node back by the labels and over the chosen arc, with as much as
// there is room for.
#![tactic(auto)]

mod aims;
mod labelling;
mod laps;
mod moves;

pub use aims::Aim;
pub use flows::far_end;
pub use labelling::{Entry, Labels, label};
pub use laps::lap;
pub use moves::may;
