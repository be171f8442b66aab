// Files in order: the least total and each flow, or a cut.

use planner::{Room, answer};
use std::alloc::AllocError;
use std::process::Abort;
use std::test::Fail;

// The answer to that file is this text.
pub(crate) fn prints(
    rt: &(impl AllocGlobal + Abort),
    file: &str,
    due: &str,
) -> Result<(), AllocError> {
    let printed = answer(Room::ask(rt.alloc())?, file.as_bytes());
    assert_eq!(rt; printed.as_str(), due, "{}", file);
    Ok(())
}

// The first three arcs of the triangle; the last carries this many.
const TRIANGLE: &str = "(net (nodes 3) (arcs 4) (tiers 1))
(arc (from 1) (to 2) (lo 0) (hi 5) (cost 2))
(arc (from 2) (to 3) (lo 0) (hi 5) (cost 1))
(arc (from 1) (to 3) (lo 0) (hi 4) (cost 4))
";

#[test]
fn triangles(rt: HostRuntime) -> Result<(), Fail> {
    let cases: [(u32, &str); 4] = [
        (
            6,
            "(least 19)\n(flow 1 5)\n(flow 2 5)\n(flow 3 1)\n(flow 4 6)\n",
        ),
        (
            9,
            "(least 31)\n(flow 1 5)\n(flow 2 5)\n(flow 3 4)\n(flow 4 9)\n",
        ),
        (10, "(none)\n(cut 1)\n"),
        (
            0,
            "(least 0)\n(flow 1 0)\n(flow 2 0)\n(flow 3 0)\n(flow 4 0)\n",
        ),
    ];
    for (back, due) in cases {
        let last = format!(in rt.alloc();
            "(arc (from 3) (to 1) (lo {back}) (hi {back}) (cost 0))"
        )?;
        let file = format!(in rt.alloc(); "{TRIANGLE}{last}\n")?;
        prints(&rt, file.as_str(), due)?;
    }
    Ok(())
}

#[test]
fn two_tiers(rt: HostRuntime) -> Result<(), Fail> {
    let file = "(net (nodes 2) (arcs 3) (tiers 2))
(arc (from 1) (to 2) (lo 0) (hi 5) (cost 1 0))
(arc (from 1) (to 2) (lo 0) (hi 5) (cost 0 9))
(arc (from 2) (to 1) (lo 3) (hi 3) (cost 0 0))
";
    prints(
        &rt,
        file,
        "(least 0 27)\n(flow 1 0)\n(flow 2 3)\n(flow 3 3)\n",
    )?;
    Ok(())
}

// The second tier counts only where the first ties.
#[test]
fn first_tier_decides(rt: HostRuntime) -> Result<(), Fail> {
    let file = "(net (nodes 2) (arcs 2) (tiers 2))
(arc (from 1) (to 2) (lo 0) (hi 5) (cost -1 1000000))
(arc (from 2) (to 1) (lo 0) (hi 4) (cost 0 0))
";
    prints(&rt, file, "(least -4 4000000)\n(flow 1 4)\n(flow 2 4)\n")?;
    Ok(())
}

// No plan: 7 come in at nodes 2 and 3, and 5 at most leave them. No other set of nodes is a cut.
#[test]
fn a_cut_of_two(rt: HostRuntime) -> Result<(), Fail> {
    let file = "(net (nodes 4) (arcs 5) (tiers 1))
(arc (from 2) (to 3) (lo 0) (hi 9) (cost 1))
(arc (from 3) (to 2) (lo 0) (hi 9) (cost 1))
(arc (from 1) (to 2) (lo 7) (hi 9) (cost 1))
(arc (from 3) (to 4) (lo 0) (hi 5) (cost 1))
(arc (from 4) (to 1) (lo 0) (hi 9) (cost 1))
";
    prints(&rt, file, "(none)\n(cut 2)\n(cut 3)\n")?;
    Ok(())
}

#[test]
fn one_node(rt: HostRuntime) -> Result<(), Fail> {
    prints(&rt, "(net (nodes 1) (arcs 0) (tiers 1))\n", "(least 0)\n")?;
    prints(&rt, "(net (nodes 1) (arcs 0) (tiers 2))\n", "(least 0 0)\n")?;
    let cases = [
        (-1, "(least -3)\n(flow 1 3)\n"),
        (1, "(least -2)\n(flow 1 -2)\n"),
    ];
    for (cost, due) in cases {
        let file = format!(in rt.alloc();
            "(net (nodes 1) (arcs 1) (tiers 1))\n(arc (from 1) (to 1) (lo -2) (hi 3) (cost {cost}))\n"
        )?;
        prints(&rt, file.as_str(), due)?;
    }
    Ok(())
}
