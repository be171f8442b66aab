// Makes of networks: what a network is kept in.
//
// `Kept` keeps a network in lent rows, and amends them there; `ShapedRow` and `ArcRow` say what a kind of rows
// owes for it: the shape that a network of them has and whether they are fit for it, at whatever cost, and which
// arc each is. Its meaning is its rows, with no arc held or fixed and no lock-out; when it is let go, the rows are
// left as they are. `ArcTable` is the one whose rows have their ends in them, and the hour chain (crate `hours`)
// is another.
//
// `ArcTable::check` says beforehand why a table is unfit; one made by `ArcTable::new` of unfit parts all the
// same shows no node and no arc, so that every call on it stops. `Kept::over` makes a network of any kind of
// rows, and `Kept::shaped` keeps them at whatever cost; both ask the rows' own check.
#![tactic(auto)]

mod kept;
mod rows;
mod table;

pub use kept::{ArcRow, Kept, ShapedRow};
pub use rows::place_of;
pub use table::{ArcTable, Counts, Row};

#[cfg(test)]
mod tests;
