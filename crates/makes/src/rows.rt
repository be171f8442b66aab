// Rows in a table that counts from 1.

ghost use Rattle.std.specs.Prelude.{◌≡◌, ℕ};
ghost use Rattle.makes.specs.Bases.{place_of};

// The place, counted from 0, of the a-th of so many rows.
pub fn place_of(count: usize, a: usize) -> Option<usize>
    ensures { result ≡ place_of count a }
{
    a.checked_sub(1).filter(|i| *i < count)
}
