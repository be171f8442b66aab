// Runs on piles of layers, and on hour chains.
#![tactic(auto)]

#[cfg(test)]
mod passing;
#[cfg(test)]
mod piles;
