// The hour chain: a day of hours with sun, mains, generator, lamp and battery.
//
// `HourChain` keeps bounds and costs in a lent table, and works out the ends of an arc from its number. It has
// no lock-out and no arc that is held or fixed. `check_chain` says beforehand why the parts are unfit; a chain made
// of unfit parts all the same shows no node and no arc, so that every call on it stops.
#![tactic(auto)]

mod chain;

pub use chain::{HourChain, HourRow, check_chain, new_chain};

#[cfg(test)]
mod tests;
