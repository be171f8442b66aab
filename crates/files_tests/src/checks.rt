// Files read and written back, byte for byte.

use costs::{Plain, TwoTier};
use files::{check, write_table};
use makes::{ArcTable, Row};
use networks::Stop;
use std::alloc::{AllocError, Global};
use std::process::Abort;
use std::test::Fail;

// Bounds and costs at their limits, zeros, a loop, parallel arcs and numbers below zero.
const PLAIN: &str = "(net (nodes 256) (arcs 4) (tiers 1))
(arc (from 1) (to 256) (lo -1000000) (hi 1000000) (cost -1000000))
(arc (from 256) (to 1) (lo 0) (hi 0) (cost 0))
(arc (from 10) (to 10) (lo -7) (hi -7) (cost 1000000))
(arc (from 10) (to 10) (lo -7) (hi 100) (cost -1))
";

const TWO: &str = "(net (nodes 2) (arcs 2) (tiers 2))
(arc (from 1) (to 2) (lo 0) (hi 5) (cost 0 -9))
(arc (from 2) (to 1) (lo -10) (hi 20) (cost -1000000 1000000))
";

const NONE: &str = "(net (nodes 1) (arcs 0) (tiers 2))\n";

// The check of a file tells this text.
fn tells(rt: &(impl AllocGlobal + Abort), file: &str, due: &str) -> Result<(), AllocError> {
    let text = check(rt.alloc(), file.as_bytes())?;
    assert_eq!(rt; text.as_slice(), due.as_bytes(), "{}", file);
    Ok(())
}

#[test]
fn same_bytes(rt: HostRuntime) -> Result<(), Fail> {
    for file in [PLAIN, TWO, NONE] {
        tells(&rt, file, file)?;
    }
    Ok(())
}

#[test]
fn refusals(rt: HostRuntime) -> Result<(), Fail> {
    tells(
        &rt,
        "(net (nodes 1) (arcs 0) (tiers 1))\n#",
        "(refused 13 2 1 5)\n",
    )?;
    tells(&rt, "(net (nodes 0", "(refused 13 1 13 6)\n")?;
    tells(
        &rt,
        "(net (nodes 1) (arcs 1) (tiers 2))\n(arc (from 1) (to 1) (lo 5) (hi 4) (cost 2 1))\n",
        "(refused 13 2 33 7)\n",
    )?;
    Ok(())
}

// A table is written into the first of the bytes, just where there is room.
#[test]
fn room(rt: HostRuntime) {
    let text =
        "(net (nodes 2) (arcs 1) (tiers 1))\n(arc (from 1) (to 2) (lo -3) (hi 0) (cost 5))\n";
    let mut rows = [Row::new(1, 2, -3, 0, Plain { units: 5 })];
    let table = ArcTable::new(2, 1, &mut rows);
    let mut out = [b'#'; 82];
    assert_eq!(rt; write_table(&table, &mut out[..80]), Err(Stop::Lengths));
    assert_eq!(rt; out, [b'#'; 82]);
    assert_eq!(rt; write_table(&table, &mut out), Ok(81));
    assert_eq!(rt; out.starts_with(text.as_bytes()), true);
    assert_eq!(rt; out[81], b'#');
}

// A table that cannot be written, with the bytes as they were.
#[test]
fn unfit(rt: HostRuntime) {
    let far = TwoTier {
        first: 0,
        second: 1_000_001,
    };
    let low = TwoTier {
        first: 0,
        second: 0,
    };
    let mut out = [b'#'; 200];
    for (row, stop) in [
        (Row::new(0, 1, 0, 0, low), Stop::Ends(1)),
        (Row::new(1, 2, 5, 4, far), Stop::Cost(1)),
        (Row::new(1, 2, 5, 4, low), Stop::Bounds(1)),
    ] {
        let mut rows = [row];
        let table = ArcTable::new(2, 1, &mut rows);
        assert_eq!(rt; write_table(&table, &mut out), Err(stop));
    }
    let mut rows = [Row::new(1, 1, 0, 0, low)];
    let table = ArcTable::new(0, 1, &mut rows);
    assert_eq!(rt; write_table(&table, &mut out), Err(Stop::Counts));
    assert_eq!(rt; out, [b'#'; 200]);
}
