// Where a byte of a file stands, and what can be wrong there.

ghost use Rattle.std.specs.Prelude.{◌≡◌};
ghost use Rattle.tokens.specs.Faults.{bounds_fault};

use networks::Stop;

// A byte of a file: its line, and its place in that line, both from 1.
#[derive(Clone, Copy, Debug, PartialEq, Eq)]
pub struct Spot {
    pub line: usize,
    pub place: usize,
}

// What can be wrong in a line.
#[derive(Clone, Copy, Debug, PartialEq, Eq)]
pub enum Cause {
    // A byte of no token.
    Byte,
    // A number with no digit or more than 7, with a leading zero, or with a minus before zero.
    Number,
    // A token that is not due.
    NotDue,
    // No byte where a token is due.
    End,
    // A number outside its range.
    Range,
    // Bounds that cannot be made, with the stop of their making.
    Bounds(Stop),
}

// Bounds that cannot be made: where the upper one stands, and the stop of their making.
#[derive(Clone, Copy, Debug, PartialEq, Eq)]
pub struct BoundsFault {
    pub spot: Spot,
    pub stop: Stop,
}

#[derive(Clone, Copy, Debug, PartialEq, Eq)]
pub struct LineFault {
    pub spot: Spot,
    pub cause: Cause,
}

impl From<BoundsFault> for LineFault {
    ghost from_gives = { λ e r. r ≡ bounds_fault e };

    fn from(e: BoundsFault) -> LineFault {
        LineFault {
            spot: e.spot,
            cause: Cause::Bounds(e.stop),
        }
    }
}
