// Network files: a table of arcs as text, a line of counts and then a line for each arc.
//
//     (net (nodes 3) (arcs 2) (tiers 1))
//     (arc (from 1) (to 2) (lo 0) (hi 5) (cost 2))
//     (arc (from 2) (to 3) (lo 0) (hi 5) (cost 1))
//
// Tokens are brackets, words, numbers, single spaces and line feeds, just in the order shown; every line
// ends in a line feed. `read_header` answers the counts, and `read_table` reads the arcs into lent rows.
// Both equal their rule (specs), faults and places included; where reading stops, the rows are as they
// were. A fault tells the line, the byte in it, and the cause; faults are found in reading order.
// `write_table` writes a table into lent bytes. The text of counts and rows is spelled in specs/Texts: what
// is read was spelled so, what is spelled so is read, and so each undoes the other. `check` reads a file and
// writes it back.
#![tactic(auto)]

mod arcs;
mod checks;
mod faults;
mod header;
mod kinds;
mod pen;
mod tables;
mod writing;

pub use checks::check;
pub use faults::{FileFault, ReadStop};
pub use header::Header;
pub use kinds::FileCost;
pub use tables::{MOST_BYTES, read_header, read_table};
pub use writing::write_table;
