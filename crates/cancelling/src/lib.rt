//! Least-cost flows by another method than the search's: cycles of negative weight are cancelled one by one
//! (Klein's method, with the cycles found by Bellman and Ford's).
//!
//! Programs compare its answers with those of the search, with which it shares nothing. It promises no more
//! than to be safe and to return: whether it is right is what the comparison tells of both.
#![tactic(auto)]

mod graph;
mod weight;

pub use graph::{Edge, Found, Graph};
pub use weight::Weight;
