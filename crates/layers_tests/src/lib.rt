// Layers on examples: a closing over a table, and in a pile of lock-outs.
#![tactic(auto)]

#[cfg(test)]
mod closings;
mod lent;
