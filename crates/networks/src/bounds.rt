// A pair of bounds: it exists only with lo at most hi and both within the limits.

ghost use Rattle.std.specs.Prelude.{pos, negsuc, ◌≤ℤ◌};

#[derive(Clone, Copy, Debug, PartialEq, Eq)]
pub struct Bounds {
    lo: i32,
    hi: i32,
    ghost ordered: { lo ≤ℤ hi },
    ghost low: { negsuc 999999 ≤ℤ lo },
    ghost high: { hi ≤ℤ pos 1000000 },
}

impl Bounds {
    pub const LIMIT: i32 = 1_000_000;
}

mod making;
