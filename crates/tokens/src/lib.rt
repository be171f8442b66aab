// Tokens of network files: brackets, words, numbers, single spaces and line feeds; and where in a file
// something is wrong.
//
// `front` answers the token at the front of a text, or why there is none, as its rule says (specs). Words
// and numbers are parts of the text; `value` answers what a number says. A fault tells its spot, which is
// a line and a place in it, and its cause.
#![tactic(auto)]

mod scan;
mod spots;

pub use scan::{Token, front, value};
pub use spots::{BoundsFault, Cause, LineFault, Spot};
