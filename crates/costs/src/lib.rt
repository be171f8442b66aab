// Cost kinds: what a unit of flow costs, and how costs are added, multiplied, negated and compared.
//
// `CostKind` states what any kind owes: its true operations (`kind`), their laws (`lawful`), and for each
// operation an answer that equals the true outcome and is absent exactly when that outcome has a size
// above 4,000,000,000,000,000. `Plain` is one whole number; `TwoTier` is two, of which the first decides.
// Everything that works on costs is written once, over this trait.
//
// Not promised: that a cost made by hand has a size within the limit; the operations take any.
#![tactic(auto)]

ghost use Rattle.std.proofs.Common.{rules};
ghost use Rattle.std.proofs.lemmas.Int.{ints};
ghost use Rattle.std.specs.Prelude.{◌≡◌, ℕ, ℤ, ◌+ℤ◌, ◌*ℤ◌, neg_ℤ, unsigned_abs};
ghost use Rattle.costs.specs.Kinds.{Kind, Laws, Ordered, answered};
ghost use Rattle.costs.specs.Models.{plain_kind, two_tier_kind, joined};
ghost use Rattle.costs.specs.PlainLaws.{plain_laws};
ghost use Rattle.costs.specs.TwoTierLaws.{two_tier_laws};

mod printing;

// The largest size that an operation answers.
pub const SIZE_LIMIT: i64 = 4_000_000_000_000_000;

// A kind of costs.
pub trait CostKind: Copy {
    // The true operations.
    ghost kind: { Kind Self };

    fn zero() -> Self
        ensures { result ≡ kind.zero };

    fn plus(self, other: Self) -> Option<Self>
        ensures { result ≡ answered kind.size (kind.plus self other) };

    fn negated(self) -> Option<Self>
        ensures { result ≡ answered kind.size (kind.neg self) };

    // k equal costs added; for negative k the negative of that.
    fn times(self, k: i32) -> Option<Self>
        ensures { result ≡ answered kind.size (kind.times k self) };

    // Whether it is below the other or equal to it.
    fn at_most(self, other: Self) -> bool
        ensures { result ≡ kind.le self other };

    fn size(self) -> u64
        ensures { result ≡ kind.size self };

    ghost lawful: { Laws kind };
}

// A kind whose type is compared by `<` and `<=` too.
pub trait OrderedCost: CostKind + Ord {
    // The comparisons of the type are those of the kind.
    ghost ordered: { Ordered Self.CostKind.kind Self.partial_cmp };
}

// One whole number.
#[derive(Clone, Copy, Debug, PartialEq, Eq, PartialOrd, Ord)]
pub struct Plain {
    pub units: i64,
}

// Two whole numbers: the first decides, the second breaks ties, as the fields' order gives it.
#[derive(Clone, Copy, Debug, PartialEq, Eq, PartialOrd, Ord)]
pub struct TwoTier {
    pub first: i64,
    pub second: i64,
}

// The number, if it is within the limit.
fn limited(x: i64) -> Option<i64>
    ensures { result ≡ answered unsigned_abs x }
{
    (x.unsigned_abs() <= SIZE_LIMIT as u64).then_some(x)
}

fn sum(a: i64, b: i64) -> Option<i64>
    ensures { result ≡ answered unsigned_abs (a +ℤ b) }
{
    a.checked_add(b).and_then(limited)
}

fn product(k: i32, a: i64) -> Option<i64>
    ensures { result ≡ answered unsigned_abs (k *ℤ a) }
{
    i64::from(k).checked_mul(a).and_then(limited)
}

fn negative(a: i64) -> Option<i64>
    ensures { result ≡ answered unsigned_abs (neg_ℤ a) }
{
    a.checked_neg().and_then(limited)
}

impl CostKind for Plain {
    ghost kind = { plain_kind };

    ghost lawful = { plain_laws };

    fn zero() -> Plain {
        Plain { units: 0 }
    }

    fn plus(self, other: Plain) -> Option<Plain> {
        Some(Plain {
            units: sum(self.units, other.units)?,
        })
    }

    fn negated(self) -> Option<Plain> {
        Some(Plain {
            units: negative(self.units)?,
        })
    }

    fn times(self, k: i32) -> Option<Plain> {
        Some(Plain {
            units: product(k, self.units)?,
        })
    }

    fn at_most(self, other: Plain) -> bool {
        self.units <= other.units
    }

    fn size(self) -> u64 {
        self.units.unsigned_abs()
    }
}

impl OrderedCost for Plain {
    ghost ordered = { record { at_most = λ a b. Prim.grind (rules, ints); below = λ a b. Prim.grind (rules, ints) } };
}

// The two tiers, if both are there.
fn both(first: Option<i64>, second: Option<i64>) -> Option<TwoTier>
    ensures { result ≡ joined first second }
{
    Some(TwoTier {
        first: first?,
        second: second?,
    })
}

impl CostKind for TwoTier {
    ghost kind = { two_tier_kind };

    ghost lawful = { two_tier_laws };

    fn zero() -> TwoTier {
        TwoTier {
            first: 0,
            second: 0,
        }
    }

    fn plus(self, other: TwoTier) -> Option<TwoTier> {
        both(sum(self.first, other.first), sum(self.second, other.second))
    }

    fn negated(self) -> Option<TwoTier> {
        both(negative(self.first), negative(self.second))
    }

    fn times(self, k: i32) -> Option<TwoTier> {
        both(product(k, self.first), product(k, self.second))
    }

    fn at_most(self, other: TwoTier) -> bool {
        self.first < other.first || (self.first == other.first && self.second <= other.second)
    }

    fn size(self) -> u64 {
        self.first.unsigned_abs().max(self.second.unsigned_abs())
    }
}

impl OrderedCost for TwoTier {
    ghost ordered = { record { at_most = λ a b. Prim.grind (rules, ints); below = λ a b. Prim.grind (rules, ints) } };
}
