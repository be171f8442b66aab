// Files that are refused: number 13, then the line, the place and the cause.

use crate::answered::prints;
use planner::{Room, answer};
use std::test::Fail;

// A header of one arc, and one of that many tiers.
const ONE: &str = "(net (nodes 3) (arcs 1) (tiers 1))\n";

const NONE: &str = "(net (nodes 3) (arcs 0) (tiers 1))\n";

#[test]
fn causes(rt: HostRuntime) -> Result<(), Fail> {
    let cases = [
        // a byte of no token
        (ONE, "(arc (from 1) (to 2) (lo +1)", "(refused 13 2 26 1)\n"),
        // a malformed number
        (ONE, "(arc (from 01)", "(refused 13 2 12 2)\n"),
        // a token that is not due
        (ONE, "(arc (to 2)", "(refused 13 2 7 3)\n"),
        // an early end: of a line, and of the file
        (ONE, "(arc (from 1", "(refused 13 2 13 4)\n"),
        (ONE, "", "(refused 13 2 1 4)\n"),
        ("", "", "(refused 13 1 1 4)\n"),
        // a byte after the last line
        (NONE, "\n", "(refused 13 2 1 5)\n"),
        // a number outside its range
        (ONE, "(arc (from 1) (to 4)", "(refused 13 2 19 6)\n"),
        ("(net (nodes 257)", "", "(refused 13 1 13 6)\n"),
        (
            "(net (nodes 3) (arcs 0) (tiers 3))\n",
            "",
            "(refused 13 1 32 6)\n",
        ),
        // bounds that cannot be made
        (
            ONE,
            "(arc (from 1) (to 2) (lo 5) (hi 4)",
            "(refused 13 2 33 7)\n",
        ),
    ];
    for (first, rest, due) in cases {
        let file = format!(in rt.alloc(); "{first}{rest}")?;
        prints(&rt, file.as_str(), due)?;
    }
    Ok(())
}

// A cost of one number in a file of two tiers, and of two in a file of one.
#[test]
fn costs_of_other_tiers(rt: HostRuntime) -> Result<(), Fail> {
    let arc = "(arc (from 1) (to 2) (lo 0) (hi 5) (cost 2";
    let file = format!(in rt.alloc(); "(net (nodes 3) (arcs 1) (tiers 2))\n{arc}))\n")?;
    prints(&rt, file.as_str(), "(refused 13 2 43 3)\n")?;
    let file = format!(in rt.alloc(); "{ONE}{arc} 0))\n")?;
    prints(&rt, file.as_str(), "(refused 13 2 43 3)\n")?;
    Ok(())
}

// A byte too many is told before all else.
#[test]
fn long_files(rt: HostRuntime) -> Result<(), Fail> {
    let printed = answer(Room::ask(rt.alloc())?, &[b'#'; 65_537]);
    assert_eq!(rt; printed.as_str(), "(refused 13 1 1 8)\n");
    let printed = answer(Room::ask(rt.alloc())?, &[b'#'; 65_536]);
    assert_eq!(rt; printed.as_str(), "(refused 13 1 1 1)\n");
    Ok(())
}
