// Runs: the law that everyone trusts, over any list of calls on a plan.
//
// specs/ defines the state of a plan, events (a call with its outcome), what one call does (`Step`: when it
// is refused, exactly, and what it leaves), and the law (`Run`), by the events alone. `steps_make_a_run` does
// nothing: its contract is the theorem that any chain of steps from a new plan is a run, for every network's
// meaning and every cost kind. `Call` and `Outcome` are what a list of calls holds.
//
// Not promised here: that calls take such steps. The crate `plans` has the calls.
#![tactic(auto)]

ghost use Rattle.runs.specs.Runs.{StepsMakeARun};

use costs::CostKind;

mod calls;

pub use calls::{Call, Outcome};

// Any chain of steps from a new plan keeps the law.
pub fn steps_make_a_run<C: CostKind>()
    ensures { StepsMakeARun C.CostKind.kind }
{}
