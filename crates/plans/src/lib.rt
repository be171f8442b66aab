// Plans: one network, alone or in a pile of layers, with its tables, and the calls on it.
//
// A plan's tables are lent: the flow of each arc; the need, the price and the mark of each node. `open` writes
// the needs; `settle` searches for a least-cost flow; `take_up` takes an offered flow; `rebound`, `recost`,
// `take_out` and `hand_back` ask the network. Each call says exactly when it is refused and what it leaves
// (`Step`), and that whatever run of calls led from a new plan to the plan found, the law over runs holds with
// this call added (`Lawful`). `run` opens a plan and makes the calls of a list; its contract is the law, whole.
// `settle_new` opens a plan and settles it at once.
// All of it is proved for every network with the trait's meaning, every pile of layers and every cost kind.
// Nothing is allocated, and nothing is required of a caller.
#![tactic(auto)]

mod changing;
mod fresh;
mod listing;
mod opening;
mod passed;
mod running;
mod settling;

pub use changing::{hand_back, rebound, recost, take_out};
pub use fresh::settle_new;
pub use opening::open;
pub use passed::{Passed, pass};
pub use running::run;
pub use settling::{settle, take_up};
