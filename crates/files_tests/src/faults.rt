// Files with a fault: each with the line, the place and the cause that are told.

use costs::{Plain, TwoTier};
use files::{FileCost, FileFault, Header, ReadStop, read_header, read_table};
use makes::Row;
use networks::Stop;
use std::alloc::AllocError;
use std::process::Abort;
use std::test::Fail;

// First lines of a file with one arc.
const PLAIN: &str = "(net (nodes 3) (arcs 1) (tiers 1))\n";

const TWO: &str = "(net (nodes 3) (arcs 1) (tiers 2))\n";

// A text, and the place and the cause of its fault.
type Case = (&'static str, usize, u8);

// The fault that reading ended with, if it did.
pub(crate) fn fault_of(read: Result<Header, ReadStop>) -> Option<FileFault> {
    match read {
        Err(ReadStop::Fault(fault)) => Some(fault),
        _ => None,
    }
}

// A row that stands in none of these files.
pub(crate) fn blank<C: FileCost>() -> Row<C> {
    Row::new(7, 7, 7, 7, C::of_tiers(7, 7))
}

// The fault is the one that is due, and the rows are as they were.
fn refused<C: FileCost>(
    rt: &(impl AllocGlobal + Abort),
    text: &str,
    due: (usize, usize, u8),
) -> Result<(), AllocError> {
    let mut rows = vec![in rt.alloc(); blank::<C>(); 2]?;
    let fault = fault_of(read_table(text.as_bytes(), &mut rows));
    assert_eq!(rt; fault.map(|fault| fault.told()), Some(due), "{}", text);
    assert_eq!(rt; (rows[0].from, rows[1].from), (7, 7), "{}", text);
    Ok(())
}

// Faults of the first line.
#[test]
fn first_lines(rt: HostRuntime) -> Result<(), Fail> {
    let cases: [Case; 40] = [
        // a byte of no token
        ("#", 1, 1),
        ("(net\t(nodes 3) (arcs 0) (tiers 1))\n", 5, 1),
        ("(A", 2, 1),
        ("(net (nodes 3) (arcs 0) (tiers 1))\r\n", 35, 1),
        // a malformed number, also where no number is due
        ("(net (nodes 007) (arcs 0) (tiers 1))\n", 13, 2),
        ("(net (nodes -0) (arcs 0) (tiers 1))\n", 13, 2),
        ("(net (nodes -) (arcs 0) (tiers 1))\n", 13, 2),
        ("(net (nodes --1) (arcs 0) (tiers 1))\n", 13, 2),
        ("(net (nodes -", 13, 2),
        ("(net (nodes 12345678) (arcs 0) (tiers 1))\n", 13, 2),
        ("(net (nodes 3-) (arcs 0) (tiers 1))\n", 14, 2),
        ("(007", 2, 2),
        // a token that is not due
        ("net", 1, 3),
        ("\n", 1, 3),
        ("(ne", 2, 3),
        ("(nets (nodes 3) (arcs 0) (tiers 1))\n", 2, 3),
        ("(3 (nodes 3) (arcs 0) (tiers 1))\n", 2, 3),
        ("(net(nodes 3) (arcs 0) (tiers 1))\n", 5, 3),
        ("(net  (nodes 3) (arcs 0) (tiers 1))\n", 6, 3),
        ("(net (nodeS 3) (arcs 0) (tiers 1))\n", 7, 3),
        ("(net (nodes three) (arcs 0) (tiers 1))\n", 13, 3),
        ("(net (nodes 3-1) (arcs 0) (tiers 1))\n", 14, 3),
        ("(net (nodes 3)\n", 15, 3),
        ("(net (arcs 0) (nodes 3) (tiers 1))\n", 7, 3),
        ("(net (nodes 3) (arcs 0) (tiers 1)) \n", 35, 3),
        // an early end
        ("", 1, 4),
        ("(", 2, 4),
        ("(net", 5, 4),
        ("(net (nodes 3", 14, 4),
        ("(net (nodes 3) (arcs 0) (tiers 1)", 34, 4),
        ("(net (nodes 3) (arcs 0) (tiers 1))", 35, 4),
        // a number outside its range, before what comes after it
        ("(net (nodes 0) (arcs 0) (tiers 1))\n", 13, 6),
        ("(net (nodes 257) (arcs 0) (tiers 1))\n", 13, 6),
        ("(net (nodes 257", 13, 6),
        ("(net (nodes -3) (arcs 0) (tiers 1))\n", 13, 6),
        ("(net (nodes 3) (arcs 1025) (tiers 1))\n", 22, 6),
        ("(net (nodes 3) (arcs -1) (tiers 1))\n", 22, 6),
        ("(net (nodes 3) (arcs 0) (tiers 0))\n", 32, 6),
        ("(net (nodes 3) (arcs 0) (tiers 2))\n", 32, 6),
        ("(net (nodes 3) (arcs 0) (tiers 3))\n", 32, 6),
    ];
    for (text, place, cause) in cases {
        refused::<Plain>(&rt, text, (1, place, cause))?;
    }
    Ok(())
}

// Faults of an arc's line.
#[test]
fn arc_lines(rt: HostRuntime) -> Result<(), Fail> {
    let cases: [Case; 30] = [
        // a byte of no token
        ("(arc (from 1) (to 2) (lo +1) (hi 5) (cost 2))\n", 26, 1),
        ("(arc (from 1) (to 2) (lo 0) (hi 5) (cost 1.5))\n", 43, 1),
        // a malformed number
        ("(arc (from 01) (to 2) (lo 0) (hi 5) (cost 2))\n", 12, 2),
        ("(arc (from 1) (to 2) (lo 0) (hi -00) (cost 2))\n", 33, 2),
        (
            "(arc (from 1) (to 2) (lo 0) (hi 5) (cost -10000000))\n",
            42,
            2,
        ),
        // a token that is not due
        ("(arcs (from 1) (to 2) (lo 0) (hi 5) (cost 2))\n", 2, 3),
        ("(net (nodes 3) (arcs 1) (tiers 1))\n", 2, 3),
        ("(arc (from 1)  (to 2) (lo 0) (hi 5) (cost 2))\n", 15, 3),
        ("(arc (from 1) (lo 0) (hi 5) (to 2) (cost 2))\n", 16, 3),
        ("(arc (from 1) (to 2) (lo 0) (hi 5) (cost 2 0))\n", 43, 3),
        ("(arc (from 1) (to 2) (lo 0) (hi 5) (cost 2)) ", 45, 3),
        ("(arc (from 1) (to 2) (lo 0) (hi 5) (cost 2)\n", 44, 3),
        ("\n", 1, 3),
        // an early end
        ("", 1, 4),
        ("(arc", 5, 4),
        ("(arc (from 1", 13, 4),
        ("(arc (from 1) (to 2) (lo 0) (hi 5) (cost 2)", 44, 4),
        ("(arc (from 1) (to 2) (lo 0) (hi 5) (cost 2))", 45, 4),
        // a number outside its range
        ("(arc (from 0) (to 2) (lo 0) (hi 5) (cost 2))\n", 12, 6),
        ("(arc (from 4) (to 2) (lo 0) (hi 5) (cost 2))\n", 12, 6),
        ("(arc (from 1) (to 0) (lo 0) (hi 5) (cost 2))\n", 19, 6),
        ("(arc (from 1) (to 4", 19, 6),
        ("(arc (from -1) (to 2) (lo 0) (hi 5) (cost 2))\n", 12, 6),
        (
            "(arc (from 1) (to 2) (lo 0) (hi 5) (cost 1000001))\n",
            42,
            6,
        ),
        ("(arc (from 1) (to 2) (lo 0) (hi 5) (cost -1000001", 42, 6),
        // bounds that cannot be made, before what comes after them
        ("(arc (from 1) (to 2) (lo 5) (hi 4) (cost 2))\n", 33, 7),
        ("(arc (from 1) (to 2) (lo 5) (hi 4#", 33, 7),
        (
            "(arc (from 1) (to 2) (lo 0) (hi 1000001) (cost 2))\n",
            33,
            7,
        ),
        (
            "(arc (from 1) (to 2) (lo -1000001) (hi 0) (cost 2))\n",
            40,
            7,
        ),
        (
            "(arc (from 1) (to 2) (lo 9999999) (hi 9999999) (cost 2))\n",
            39,
            7,
        ),
    ];
    for (line, place, cause) in cases {
        let text = format!(in rt.alloc(); "{PLAIN}{line}")?;
        refused::<Plain>(&rt, text.as_str(), (2, place, cause))?;
    }
    Ok(())
}

// Faults of a cost of two tiers.
#[test]
fn two_tiers(rt: HostRuntime) -> Result<(), Fail> {
    let cases: [Case; 6] = [
        ("(arc (from 1) (to 2) (lo 0) (hi 5) (cost 2))\n", 43, 3),
        ("(arc (from 1) (to 2) (lo 0) (hi 5) (cost 2 ))\n", 44, 3),
        ("(arc (from 1) (to 2) (lo 0) (hi 5) (cost 2 1 0))\n", 45, 3),
        ("(arc (from 1) (to 2) (lo 0) (hi 5) (cost 2", 43, 4),
        (
            "(arc (from 1) (to 2) (lo 0) (hi 5) (cost 1000001 0))\n",
            42,
            6,
        ),
        (
            "(arc (from 1) (to 2) (lo 0) (hi 5) (cost 2 -1000001))\n",
            44,
            6,
        ),
    ];
    for (line, place, cause) in cases {
        let text = format!(in rt.alloc(); "{TWO}{line}")?;
        refused::<TwoTier>(&rt, text.as_str(), (2, place, cause))?;
    }
    refused::<TwoTier>(&rt, PLAIN, (1, 32, 6))?;
    Ok(())
}

// Faults past the first arc's line.
#[test]
fn later_lines(rt: HostRuntime) -> Result<(), Fail> {
    let cases: [(&str, (usize, usize, u8)); 6] = [
        ("(net (nodes 3) (arcs 0) (tiers 1))\n\n", (2, 1, 5)),
        ("(net (nodes 3) (arcs 0) (tiers 1))\n#", (2, 1, 5)),
        (
            "(net (nodes 1) (arcs 1) (tiers 1))\n(arc (from 1) (to 1) (lo 0) (hi 5) (cost 2))\n\n",
            (3, 1, 5),
        ),
        (
            "(net (nodes 1) (arcs 1) (tiers 1))\n(arc (from 1) (to 1) (lo 0) (hi 5) (cost 2))\n(arc (from 1) (to 1) (lo 0) (hi 5) (cost 2))\n",
            (3, 1, 5),
        ),
        (
            "(net (nodes 1) (arcs 2) (tiers 1))\n(arc (from 1) (to 1) (lo 0) (hi 5) (cost 2))\n",
            (3, 1, 4),
        ),
        (
            "(net (nodes 1) (arcs 2) (tiers 1))\n(arc (from 1) (to 1) (lo 0) (hi 5) (cost 2))\n(arc (from 1) (to 2) (lo 0) (hi 5) (cost 2))\n",
            (3, 19, 6),
        ),
    ];
    for (text, due) in cases {
        refused::<Plain>(&rt, text, due)?;
    }
    Ok(())
}

// The stop of bounds that cannot be made is told too.
#[test]
fn stops(rt: HostRuntime) -> Result<(), Fail> {
    let text = "(net (nodes 1) (arcs 1) (tiers 1))\n(arc (from 1) (to 1) (lo 5) (hi 4) (cost 2))\n";
    let mut rows = [blank::<Plain>()];
    let fault = fault_of(read_table(text.as_bytes(), &mut rows)).ok_or("no fault")?;
    assert_eq!(rt; fault.stop(), Some(Stop::Bounds(0)));
    let fault = read_header("(net".as_bytes()).err().ok_or("no fault")?;
    assert_eq!(rt; fault.stop(), None);
    Ok(())
}

// One byte too many is told before all else.
#[test]
fn long_files(rt: HostRuntime) -> Result<(), Fail> {
    let fault = read_header(&[b'#'; 65_537]).err().ok_or("no fault")?;
    assert_eq!(rt; fault.told(), (1, 1, 8));
    let fault = read_header(&[b'#'; 65_536]).err().ok_or("no fault")?;
    assert_eq!(rt; fault.told(), (1, 1, 1));
    Ok(())
}
