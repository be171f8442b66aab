//! What a unit of flow costs on its way.

/// A cost of up to two numbers, and before them by how much a unit lessens the distances outside the bounds,
/// as a number that falls. The first number that is not zero decides.
#[derive(Clone, Copy, Debug, Default, PartialEq, Eq, PartialOrd, Ord)]
pub struct Weight {
    pub outside: i64,
    pub first: i64,
    pub second: i64,
}

impl Weight {
    pub const ZERO: Weight = Weight {
        outside: 0,
        first: 0,
        second: 0,
    };

    /// A cost of two numbers; one of a single number has zero as its second.
    pub fn of_cost(first: i64, second: i64) -> Weight {
        Weight {
            outside: 0,
            first,
            second,
        }
    }

    /// The sum. It wraps, which no network within the limits reaches.
    pub fn plus(self, other: Weight) -> Weight {
        Weight {
            outside: self.outside.wrapping_add(other.outside),
            first: self.first.wrapping_add(other.first),
            second: self.second.wrapping_add(other.second),
        }
    }

    /// So many times this weight.
    pub fn times(self, n: i64) -> Weight {
        Weight {
            outside: self.outside.wrapping_mul(n),
            first: self.first.wrapping_mul(n),
            second: self.second.wrapping_mul(n),
        }
    }
}
