// The calls on a plan, as a list can hold them, and their outcomes.

ghost use Rattle.std.specs.Prelude.{◌≡◌};
ghost use Rattle.runs.specs.Outcomes.{settled_as, done_as};

use networks::{Bounds, Stop};
use search::Answer;

// A call. An offered flow is the part of that length, from that place on, of the flows lent beside the list.
#[derive(Clone, Copy, Debug, PartialEq, Eq)]
pub enum Call<C> {
    Settle { budget: u32 },
    Rebound { arc: usize, bounds: Bounds },
    Recost { arc: usize, cost: C },
    TakeOut { layer: usize, arc: usize },
    HandBack { layer: usize, arc: usize },
    TakeUp { from: usize, len: usize },
}

// What came of a call: granted with settle's answer, granted, or refused.
#[derive(Clone, Copy, Debug, PartialEq, Eq)]
pub enum Outcome<C> {
    Settled(Answer<C>),
    Done,
    Refused(Stop),
}

impl<C> From<Result<Answer<C>, Stop>> for Outcome<C> {
    ghost from_gives = { λ r o. o ≡ settled_as r };

    fn from(r: Result<Answer<C>, Stop>) -> Outcome<C> {
        match r {
            Ok(answer) => Outcome::Settled(answer),
            Err(stop) => Outcome::Refused(stop),
        }
    }
}

impl<C> From<Result<(), Stop>> for Outcome<C> {
    ghost from_gives = { λ r o. o ≡ done_as r };

    fn from(r: Result<(), Stop>) -> Outcome<C> {
        match r {
            Ok(()) => Outcome::Done,
            Err(why) => Outcome::Refused(why),
        }
    }
}
