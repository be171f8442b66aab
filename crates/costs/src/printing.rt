// How costs print: their numbers, with a blank between two.

ghost use Rattle.std.specs.Prelude.{Some};
ghost use Rattle.costs.specs.Texts.{plain_text, two_tier_text};

use crate::{Plain, TwoTier};
use std::fmt;

impl fmt::Display for Plain {
    ghost output = { λ c. Some (plain_text c) };

    fn fmt<W: fmt::Write>(&self, f: &mut fmt::Formatter<W>) -> fmt::Result {
        write!(f, "{}", self.units)
    }
}

impl fmt::Display for TwoTier {
    ghost output = { λ c. Some (two_tier_text c) };

    fn fmt<W: fmt::Write>(&self, f: &mut fmt::Formatter<W>) -> fmt::Result {
        write!(f, "{} {}", self.first, self.second)
    }
}
