// Reach: from the source of a chosen arc to its sought node, with changes of prices on the way.
#![tactic(auto)]

mod rises;
mod rounds;
mod scans;

pub use rounds::{Over, reach};
