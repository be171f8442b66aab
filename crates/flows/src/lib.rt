// Flows: what a least-cost flow is, the theorems that certify one, and the checks that calls share.
//
// specs/ defines imbalances, totals, kilter, laps, cuts, which stop comes first, and what the search owes
// for each of its answers, also in words. Beside the definitions stand functions that equal them:
// `first_stop`, `imbalance`, `imbalances`, `total` (within the limits), `checked_total` (of any flow),
// `distance`, `reduced`, `amiss`. `arcs_of` gives the arcs of a network in turn, and `raise` changes prices for every search. The functions of `theorems` do
// nothing: the contract of each is a theorem, proved once for every cost kind. `Step` is one step of a
// chain of arcs, which laps are made of.
//
// Not promised here: how a least flow is found.
#![tactic(auto)]

mod arcs;
mod balances;
mod kilter;
mod outside;
mod passing;
mod pricing;
mod steps;
mod stops;
mod theorems;
mod totals;
mod views;

pub use arcs::{Arcs, arcs_of};
pub use balances::{imbalance, imbalances};
pub use kilter::amiss;
pub use outside::distance;
pub use passing::pass_stop;
pub use pricing::{opposite, price_at, raise, reduced, sum};
pub use steps::{Step, far_end};
pub use stops::{arcs_fault, first_stop, open_stop, take_up_stop};
pub use theorems::{
    cut_shows_none, kept_signs_ease, kilter_is_least, kilter_sum_is_limited, kilter_sum_tells,
    laps_keep_imbalances, least_stays,
};
pub use totals::{checked_total, total};
pub use views::{Seen, View};
