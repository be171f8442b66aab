// The search for a least-cost flow: each arc in turn is brought into kilter, lap by lap.
//
// `settle` answers least with the total and the laps, paused with the laps, or none; it refuses exactly
// when the first stop says so. `read_price` is how it reads a price found. A guard over the lent flow puts
// it back as found unless the search commits, which it does for the answers least and paused only.
// `FULL_BUDGET` is one that no search uses up. Nothing is allocated.
#![tactic(auto)]

mod attempts;
mod budgets;
mod guard;
mod seek;
mod settling;

pub use budgets::FULL_BUDGET;
pub use settling::{Answer, read_price, settle};
