// The making of a pair of bounds, and its two numbers.

ghost use Rattle.std.specs.Prelude.{◌≡◌, ℕ, pos, Ok};
ghost use Rattle.networks.specs.Bounding.{made_bounds, read_bounds};

use super::Bounds;
use crate::Stop;

impl Bounds {
    // Refuses a pair out of order or beyond the limits.
    pub fn new(lo: i32, hi: i32) -> Result<Bounds, Stop>
        ensures { read_bounds result ≡ made_bounds lo hi }
    {
        if -Self::LIMIT <= lo && lo <= hi && hi <= Self::LIMIT {
            return Ok(Bounds { lo, hi });
        }
        Err(Stop::Bounds(0))
    }

    pub fn lo(self) -> i32
        ensures { result ≡ self.lo }
    {
        self.lo
    }

    pub fn hi(self) -> i32
        ensures { result ≡ self.hi }
    {
        self.hi
    }
}

// 0 to 0.
impl Default for Bounds {
    ghost is_default = { λ b. read_bounds (Ok b) ≡ made_bounds (pos 0) (pos 0) };

    fn default() -> Bounds {
        Bounds { lo: 0, hi: 0 }
    }
}
