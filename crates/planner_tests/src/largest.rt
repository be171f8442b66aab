// The largest file: 256 nodes, 1,024 arcs and 65,536 bytes. Four arcs lead from each node of a ring to the next,
// and each has to carry as much as may be against its way, since a unit along it costs 1,000,000.

use crate::answered::prints;
use std::alloc::{AllocError, Global};
use std::test::Fail;

// The highest bounds, of which none is reached, are written short where that makes the file as long as it may be.
fn ring(heap: Global) -> Result<String, AllocError> {
    let mut file = String::from_str(heap, "(net (nodes 256) (arcs 1024) (tiers 1))\n")?;
    for i in 0..1024u32 {
        let from = i % 256 + 1;
        let to = (i + 1) % 256 + 1;
        let high = match i {
            0..=544 => 0,
            545 => 10_000,
            _ => 1_000_000,
        };
        writeln!(
            file,
            "(arc (from {from}) (to {to}) (lo -1000000) (hi {high}) (cost 1000000))"
        )?;
    }
    Ok(file)
}

// 1,024 arcs carry 1,000,000 each, at a cost of -1,000,000.
fn due(heap: Global) -> Result<String, AllocError> {
    let mut text = String::from_str(heap, "(least -1024000000000000)\n")?;
    for arc in 1..=1024u32 {
        writeln!(text, "(flow {arc} -1000000)")?;
    }
    Ok(text)
}

#[test]
fn the_largest_file(rt: HostRuntime) -> Result<(), Fail> {
    let file = ring(rt.alloc())?;
    assert_eq!(rt; file.len(), 65_536);
    prints(&rt, file.as_str(), due(rt.alloc())?.as_str())?;
    Ok(())
}

// A byte more is too many.
#[test]
fn a_byte_more(rt: HostRuntime) -> Result<(), Fail> {
    let mut file = ring(rt.alloc())?;
    file.push_str("\n")?;
    prints(&rt, file.as_str(), "(refused 13 1 1 8)\n")?;
    Ok(())
}
