// Cost kinds that files can hold: each cost is written as its numbers.

ghost use Rattle.std.specs.Prelude.{◌≡◌, ℕ, ◌≤◌, ℤ};
ghost use Rattle.lines.specs.Readings.{ended};
ghost use Rattle.files.specs.Kinds.{Tiers, TierLaws, Sized, plain_tiers, two_tiers};
ghost use Rattle.files.specs.Costs.{tier_in, numbers_in};
ghost use Rattle.files.specs.Written.{plain_written, plain_sized, two_tier_written, two_tier_sized};

use costs::{CostKind, Plain, TwoTier};
use lines::Cursor;
use networks::COST_LIMIT;
use tokens::LineFault;

pub trait FileCost: CostKind {
    // The numbers of a cost.
    ghost numbers: { Tiers Self };

    // How many numbers a cost has: 1 or 2.
    fn tiers() -> usize
        ensures { result ≡ numbers.count };

    // The cost of these numbers; a kind with one number leaves the second aside.
    fn of_tiers(first: i64, second: i64) -> Self
        ensures { result ≡ numbers.cost first second };

    fn first(self) -> i64
        ensures { result ≡ numbers.first self };

    // 0 where a cost has one number.
    fn second(self) -> i64
        ensures { result ≡ numbers.second self };

    // The numbers of a cost that are next.
    fn read(cursor: &mut Cursor) -> Result<Self, LineFault>
        ensures { ended result cursor.new ≡ numbers_in numbers cursor.old }
    {
        let first = tier(cursor)?;
        if Self::tiers() < 2 {
            return Ok(Self::of_tiers(first, 0));
        }
        cursor.expect(b" ")?;
        let second = tier(cursor)?;
        Ok(Self::of_tiers(first, second))
    }

    ghost written: { TierLaws numbers };

    // Its size is that of its largest number.
    ghost sized: { Sized Self.CostKind.kind.size numbers };
}

// A number of a cost.
fn tier(cursor: &mut Cursor) -> Result<i64, LineFault>
    ensures { ended result cursor.new ≡ tier_in cursor.old }
{
    let most = COST_LIMIT as i32;
    Ok(i64::from(cursor.value_within(-most, most)?))
}

impl FileCost for Plain {
    ghost numbers = { plain_tiers };

    ghost written = { plain_written };

    ghost sized = { plain_sized };

    fn tiers() -> usize {
        1
    }

    fn of_tiers(first: i64, _second: i64) -> Plain {
        Plain { units: first }
    }

    fn first(self) -> i64 {
        self.units
    }

    fn second(self) -> i64 {
        0
    }

    fn read(cursor: &mut Cursor) -> Result<Plain, LineFault> {
        let units = tier(cursor)?;
        Ok(Plain { units })
    }
}

impl FileCost for TwoTier {
    ghost numbers = { two_tiers };

    ghost written = { two_tier_written };

    ghost sized = { two_tier_sized };

    fn tiers() -> usize {
        2
    }

    fn of_tiers(first: i64, second: i64) -> TwoTier {
        TwoTier { first, second }
    }

    fn first(self) -> i64 {
        self.first
    }

    fn second(self) -> i64 {
        self.second
    }
}
