//! Worked figures: small networks of every make and layer, calls on their plans, and what each call has to
//! come to.
//!
//! The list stands in specs/ (`Worked`), each network built by its own rule. The contract of
//! [`worked_figures`] is that every figure of that list is right: whatever events with those calls lead on
//! from the opened plan, by steps, their outcomes and the flows that they leave are the stated ones. What the
//! tables of needs, prices and marks hold before makes no difference. A figure is added by adding it there.
#![tactic(auto)]

ghost use Rattle.figures.specs.Figures.{AllRight};
ghost use Rattle.figures.specs.Worked.{worked};

/// Does nothing: its contract is the theorem over the list of worked figures.
pub fn worked_figures()
    ensures { AllRight worked }
{}
