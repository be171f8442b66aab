// Tidied prices: small prices at which no reduced cost has turned its sign.
//
// `tidy` makes every price a signed sum of at most N − 1 costs, so that its size is at most (N − 1) times
// the largest cost size. A reduced cost below zero becomes zero or below, one above becomes zero or above,
// and zero stays, so that no arc gets further out of kilter.
#![tactic(auto)]

mod picks;
mod tidying;

pub use tidying::tidy;
