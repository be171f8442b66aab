// The worked networks.

use crate::tables::try_from;
use costs::{CostKind, Plain, TwoTier};
use files::FileCost;
use makes::{ArcTable, Row};
use networks::{MOST_ARCS, MOST_NODES};
use search::FULL_BUDGET;
use std::io;

// Three nodes; the way back from the third to the first carries this many.
fn triangle_rows(back: i32) -> [Row<Plain>; 4] {
    [
        Row::new(1, 2, 0, 5, Plain { units: 2 }),
        Row::new(2, 3, 0, 5, Plain { units: 1 }),
        Row::new(1, 3, 0, 4, Plain { units: 4 }),
        Row::new(3, 1, back, back, Plain { units: 0 }),
    ]
}

pub fn triangle(rt: &HostRuntime) -> io::Result<()> {
    let cases: [(&str, i32, &[i32], u32); 6] = [
        ("triangle at 6", 6, &[0, 0, 0], FULL_BUDGET),
        ("triangle at 9", 9, &[0, 0, 0], FULL_BUDGET),
        ("triangle at 10", 10, &[0, 0, 0], FULL_BUDGET),
        ("triangle, no budget", 6, &[0, 0, 0], 0),
        ("triangle, a need not met", 6, &[0, 1, 0], FULL_BUDGET),
        ("triangle, a table too short", 6, &[0, 0], FULL_BUDGET),
    ];
    for (name, back, needs, budget) in cases {
        let mut rows = triangle_rows(back);
        try_from(rt, name, &ArcTable::new(3, 4, &mut rows), 0, needs, budget)?;
    }
    Ok(())
}

pub fn one_node(rt: &HostRuntime) -> io::Result<()> {
    for (name, units) in [("loop at -1", -1), ("loop at 1", 1)] {
        let mut rows = [Row::new(1, 1, -2, 3, Plain { units })];
        let net = ArcTable::new(1, 1, &mut rows);
        try_from(rt, name, &net, 0, &[0], FULL_BUDGET)?;
    }
    let mut none: [Row<Plain>; 0] = [];
    try_from(
        rt,
        "one node, no arc",
        &ArcTable::new(1, 0, &mut none),
        0,
        &[0],
        FULL_BUDGET,
    )
}

pub fn two_nodes(rt: &HostRuntime) -> io::Result<()> {
    for (name, start) in [("opened at 3", 3), ("opened at 6", 6)] {
        let mut rows = [Row::new(1, 2, 0, 5, Plain { units: 1 })];
        let net = ArcTable::new(2, 1, &mut rows);
        try_from(rt, name, &net, start, &[start, -start], FULL_BUDGET)?;
    }
    Ok(())
}

pub fn two_tier(rt: &HostRuntime) -> io::Result<()> {
    let dear = TwoTier::of_tiers(1, 0);
    let cheap = TwoTier::of_tiers(0, 9);
    let zero = TwoTier::zero();
    let mut rows = [
        Row::new(1, 2, 0, 5, dear),
        Row::new(1, 2, 0, 5, cheap),
        Row::new(2, 1, 3, 3, zero),
    ];
    try_from(
        rt,
        "two tiers",
        &ArcTable::new(2, 3, &mut rows),
        0,
        &[0; 2],
        FULL_BUDGET,
    )
}

// The largest table: as many nodes as there may be in a ring, each with four arcs to the next.
pub fn ring(rt: &HostRuntime) -> io::Result<()> {
    let mut rows = [Row::new(1, 1, 0, 0, Plain { units: 0 }); MOST_ARCS];
    for (i, slot) in rows.iter_mut().enumerate() {
        let from = i / 4 + 1;
        let to = from % MOST_NODES + 1;
        *slot = Row::new(
            from,
            to,
            0,
            10,
            Plain {
                units: (i % 4) as i64 - 2,
            },
        );
    }
    try_from(
        rt,
        "ring of 256 nodes, 1024 arcs",
        &ArcTable::new(MOST_NODES, MOST_ARCS, &mut rows),
        0,
        &[0; MOST_NODES],
        FULL_BUDGET,
    )
}
