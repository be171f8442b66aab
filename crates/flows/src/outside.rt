// How far a flow is outside a pair of bounds.

ghost use Rattle.std.specs.Prelude.{◌≡◌, ℕ, ℤ};
ghost use Rattle.flows.specs.Flows.{outside_of};

// The distance of f below lo or above hi; 0 within the bounds.
pub fn distance(lo: i32, hi: i32, f: i32) -> u32
    ensures { result ≡ outside_of lo hi f }
{
    if f < lo {
        return lo.abs_diff(f);
    }
    if f > hi {
        return f.abs_diff(hi);
    }
    0
}
