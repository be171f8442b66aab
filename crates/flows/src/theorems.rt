// The theorems that the search rests on. Each function does nothing: its contract is the theorem, for every cost kind.

ghost use Rattle.flows.specs.Kilter.{KilterIsLeast, KilterSumIsLimited, KilterSumTells};
ghost use Rattle.flows.specs.Laps.{LapsKeepImbalances};
ghost use Rattle.flows.specs.Cuts.{CutShowsNone};
ghost use Rattle.flows.specs.searching.Prices.{KeptSignsEase};
ghost use Rattle.flows.specs.Settles.{LeastStays};

use costs::CostKind;

// A flow with no arc out of kilter, at some prices, is a least one.
pub fn kilter_is_least<C: CostKind>()
    ensures { KilterIsLeast C.CostKind.kind }
{}

// Where there is a cut, no flow within the bounds has the needs.
pub fn cut_shows_none<C: CostKind>()
    ensures { CutShowsNone C }
{}

// Laps keep the imbalance of every node.
pub fn laps_keep_imbalances<C: CostKind>()
    ensures { LapsKeepImbalances C.CostKind.kind }
{}

// The kilter numbers of A arcs within the limits add up to at most 2,000,000 × A.
pub fn kilter_sum_is_limited<C: CostKind>()
    ensures { KilterSumIsLimited C.CostKind.kind }
{}

// They add up to zero exactly when no arc is out of kilter.
pub fn kilter_sum_tells<C: CostKind>()
    ensures { KilterSumTells C.CostKind.kind }
{}

// Where prices change and no reduced cost turns its sign, no kilter number rises.
pub fn kept_signs_ease<C: CostKind>()
    ensures { KeptSignsEase C.CostKind.kind }
{}

// What was settled least settles again for nothing, with any budget: the same total, no lap, and the flow stays.
pub fn least_stays<C: CostKind>()
    ensures { LeastStays C.CostKind.kind }
{}
