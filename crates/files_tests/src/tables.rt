// Files that are read.

use crate::faults::{blank, fault_of};
use costs::{Plain, TwoTier};
use files::{Header, ReadStop, read_header, read_table};
use makes::Row;
use networks::Stop;
use std::test::Fail;

const TRIANGLE: &str = "(net (nodes 3) (arcs 4) (tiers 1))
(arc (from 1) (to 2) (lo 0) (hi 5) (cost 2))
(arc (from 2) (to 3) (lo 0) (hi 5) (cost 1))
(arc (from 1) (to 3) (lo 0) (hi 4) (cost 4))
(arc (from 3) (to 1) (lo 6) (hi 6) (cost 0))
";

const TWO_TIERS: &str = "(net (nodes 256) (arcs 2) (tiers 2))
(arc (from 1) (to 256) (lo 0) (hi 5) (cost 0 -9))
(arc (from 256) (to 10) (lo -1000000) (hi 1000000) (cost -1000000 1000000))
";

#[test]
fn triangle(rt: HostRuntime) {
    let mut rows = [blank::<Plain>(); 5];
    let header = Header {
        nodes: 3,
        arcs: 4,
        tiers: 1,
    };
    assert_eq!(rt; read_table(TRIANGLE.as_bytes(), &mut rows), Ok(header));
    let read = [
        Row::new(1, 2, 0, 5, Plain { units: 2 }),
        Row::new(2, 3, 0, 5, Plain { units: 1 }),
        Row::new(1, 3, 0, 4, Plain { units: 4 }),
        Row::new(3, 1, 6, 6, Plain { units: 0 }),
        // past the last row
        blank(),
    ];
    assert_eq!(rt; rows, read);
}

#[test]
fn costs_of_two_tiers(rt: HostRuntime) {
    let mut rows = [blank(); 2];
    let header = Header {
        nodes: 256,
        arcs: 2,
        tiers: 2,
    };
    assert_eq!(rt; read_table(TWO_TIERS.as_bytes(), &mut rows), Ok(header));
    let low = TwoTier {
        first: 0,
        second: -9,
    };
    let far = TwoTier {
        first: -1_000_000,
        second: 1_000_000,
    };
    let read = [
        Row::new(1, 256, 0, 5, low),
        Row::new(256, 10, -1_000_000, 1_000_000, far),
    ];
    assert_eq!(rt; rows, read);
}

#[test]
fn headers(rt: HostRuntime) {
    let header = Header {
        nodes: 1,
        arcs: 1024,
        tiers: 2,
    };
    assert_eq!(rt;
        read_header("(net (nodes 1) (arcs 1024) (tiers 2))\n#".as_bytes()),
        Ok(header)
    );
}

#[test]
fn no_arcs(rt: HostRuntime) {
    let mut rows = [blank::<Plain>()];
    let header = Header {
        nodes: 1,
        arcs: 0,
        tiers: 1,
    };
    assert_eq!(rt;
        read_table("(net (nodes 1) (arcs 0) (tiers 1))\n".as_bytes(), &mut rows),
        Ok(header)
    );
    assert_eq!(rt; rows, [blank()]);
}

// Rows are counted after the first line and before the second.
#[test]
fn too_few_rows(rt: HostRuntime) -> Result<(), Fail> {
    let mut rows = [blank::<Plain>(); 3];
    assert_eq!(rt;
        read_table(TRIANGLE.as_bytes(), &mut rows),
        Err(ReadStop::Stop(Stop::Lengths))
    );
    let faulty = "(net (nodes 1) (arcs 4) (tiers 1))\n#";
    assert_eq!(rt;
        read_table(faulty.as_bytes(), &mut rows),
        Err(ReadStop::Stop(Stop::Lengths))
    );
    let early = "(net (nodes 1) (arcs 4) (tiers 1))";
    let fault = fault_of(read_table(early.as_bytes(), &mut rows)).ok_or("no fault")?;
    assert_eq!(rt; fault.told(), (1, 35, 4));
    Ok(())
}
