// Why a call refuses, with the number and the place that it is told by.

ghost use Rattle.std.specs.Prelude.{◌≡◌, ℕ, Some};
ghost use Rattle.networks.specs.Stops.{told, stop_text};

use std::fmt;

#[derive(Clone, Copy, Debug, PartialEq, Eq)]
pub enum Stop {
    // N is 0 or above 256, or A is above 1,024.
    Counts,
    // A table is not of its length.
    Lengths,
    // An end of this arc is 0 or above N.
    Ends(usize),
    // The cost of this arc has a size above 1,000,000.
    Cost(usize),
    // The flow of this arc is beyond the limits.
    Flow(usize),
    // The imbalance of this node differs from its need.
    Imbalance(usize),
    // The bounds of this arc, or those to be made where it is 0, are out of order or beyond the limits.
    Bounds(usize),
    // There is no such arc or node.
    Absent(usize),
    // This arc is held, or it is out in this layer already.
    Held(usize),
    // The cost of this arc is fixed.
    Fixed(usize),
    // Every line or entry is taken.
    Full,
    // This arc is not out in this layer.
    NotOut(usize),
    // This arc is out of kilter at the prices of the plan.
    Kilter(usize),
}

impl Stop {
    pub fn number(self) -> u8
        ensures { result ≡ (told self).0 }
    {
        match self {
            Stop::Counts => 1,
            Stop::Lengths => 2,
            Stop::Ends(_) => 3,
            Stop::Cost(_) => 4,
            Stop::Flow(_) => 5,
            Stop::Imbalance(_) => 6,
            Stop::Bounds(_) => 7,
            Stop::Absent(_) => 8,
            Stop::Held(_) => 9,
            Stop::Fixed(_) => 10,
            Stop::Full => 11,
            Stop::NotOut(_) => 12,
            Stop::Kilter(_) => 14,
        }
    }

    pub fn place(self) -> usize
        ensures { result ≡ (told self).1 }
    {
        match self {
            Stop::Counts | Stop::Lengths | Stop::Full => 0,
            Stop::Ends(a) | Stop::Cost(a) | Stop::Flow(a) | Stop::Bounds(a) => a,
            Stop::Held(a) | Stop::Fixed(a) | Stop::NotOut(a) | Stop::Kilter(a) => a,
            Stop::Imbalance(n) | Stop::Absent(n) => n,
        }
    }
}

// A stop prints as its number and its place.
impl fmt::Display for Stop {
    ghost output = { λ s. Some (stop_text s) };

    fn fmt<W: fmt::Write>(&self, f: &mut fmt::Formatter<W>) -> fmt::Result {
        let number = self.number();
        let place = self.place();
        write!(f, "{number} {place}")
    }
}
