//! Groups of random networks: tables, hour chains, closings and lock-outs.

use crate::dice::Dice;
use crate::draws::{Reach, bounds, cost, hour_rows, rows};
use crate::settling::try_network;
use crate::tally::Tally;
use files::FileCost;
use hours::new_chain;
use layers::{Closing, Draft};
use makes::ArcTable;
use networks::{Bounds, Lockout, Network, TagRing};
use std::mem::ManuallyDrop;
use std::test::Fail;

/// How many nodes and arcs the tables have at most.
const NODES: usize = 12;

const ARCS: usize = 60;

/// The places for tags: as many as two lock-outs have lines.
pub const TAGS: usize = 32;

/// So many random tables.
pub fn tables<C: FileCost>(rt: &HostRuntime, dice: &mut Dice, count: usize) -> Result<Tally, Fail> {
    let mut tally = Tally::default();
    for _ in 0..count {
        let nodes = dice.one_to(NODES);
        let arcs = dice.up_to(ARCS);
        let reach = Reach::any(dice);
        let mut rows = rows::<C>(rt.alloc(), dice, nodes, arcs, reach)?;
        let net = ArcTable::new(nodes, arcs, &mut rows);
        try_network(rt, dice, &net, reach, &mut tally)?;
    }
    Ok(tally)
}

/// So many hour chains, of 1 to 48 hours.
pub fn chains<C: FileCost>(rt: &HostRuntime, dice: &mut Dice, count: usize) -> Result<Tally, Fail> {
    let mut tally = Tally::default();
    for _ in 0..count {
        let most = if dice.once_in(10) { 48 } else { 12 };
        let hours = dice.one_to(most);
        let mut rows = hour_rows::<C>(rt.alloc(), dice, hours)?;
        let net = new_chain(hours, &mut rows);
        try_network(rt, dice, &net, Reach::Near, &mut tally)?;
    }
    Ok(tally)
}

/// A closing over a network, with up to six random entries.
pub fn closed<N: Network>(
    dice: &mut Dice,
    below: N,
    reach: Reach,
) -> Result<Closing<N, N::Cost>, Fail>
where
    N: Drop,
    N::Cost: FileCost,
{
    let nodes = below.nodes();
    let (lo, hi) = bounds(dice, reach);
    let mut draft = Draft::new(below, Bounds::new(lo, hi)?, cost(dice, reach));
    for _ in 0..dice.up_to(6) {
        let node = dice.up_to(nodes.saturating_add(1));
        let (lo, hi) = bounds(dice, reach);
        let bounds = Bounds::new(lo, hi)?;
        let _ = if dice.once_in(2) {
            draft.supply(node, bounds)
        } else {
            draft.demand(node, bounds)
        };
    }
    Ok(draft.close())
}

/// So many closings over random tables.
pub fn closings<C: FileCost>(
    rt: &HostRuntime,
    dice: &mut Dice,
    count: usize,
) -> Result<Tally, Fail> {
    let mut tally = Tally::default();
    for _ in 0..count {
        let nodes = dice.one_to(NODES);
        let arcs = dice.up_to(ARCS - 8);
        let reach = Reach::any(dice);
        let mut rows = rows::<C>(rt.alloc(), dice, nodes, arcs, reach)?;
        let net = closed(dice, ArcTable::new(nodes, arcs, &mut rows), reach)?;
        try_network(rt, dice, &net, reach, &mut tally)?;
    }
    Ok(tally)
}

/// Lets a ring go, and says whether it was empty. One with tags left cannot be let go: it is kept for ever.
pub fn is_emptied(tags: TagRing<TAGS>) -> bool {
    match tags.close() {
        Ok(()) => true,
        Err(left) => {
            let _kept = unsafe { ManuallyDrop::new_unchecked(left) };
            false
        }
    }
}

// Takes random arcs out at both lock-outs of a pile.
fn take_some<N: Network>(dice: &mut Dice, net: &mut N, tags: &mut TagRing<TAGS>) {
    for _ in 0..dice.up_to(8) {
        let arc = dice.up_to(net.arcs());
        let layer = dice.up_to(2);
        let _ = tags.take_out(net, layer, arc);
    }
}

/// Hands every arc back that a ring has a tag of.
pub fn hand_all<N: Network>(net: &mut N, tags: &mut TagRing<TAGS>) {
    for layer in 1..=2 {
        for arc in 1..=net.arcs() {
            let _ = tags.hand_back(net, layer, arc);
        }
    }
}

// One trial of a network under lock-outs, with arcs out; they are handed back after it.
fn try_locked<N: Network>(
    rt: &HostRuntime,
    dice: &mut Dice,
    mut net: N,
    reach: Reach,
    tally: &mut Tally,
) -> Result<(), Fail>
where
    N: Drop,
    N::Cost: FileCost,
{
    let mut tags = TagRing::new();
    take_some(dice, &mut net, &mut tags);
    let tried = try_network(rt, dice, &net, reach, tally);
    hand_all(&mut net, &mut tags);
    let emptied = is_emptied(tags);
    tried?;
    if !emptied {
        return Err(Fail::new("tags are left"));
    }
    Ok(())
}

/// So many tables under one or two lock-outs, with arcs out.
pub fn lockouts<C: FileCost>(
    rt: &HostRuntime,
    dice: &mut Dice,
    count: usize,
) -> Result<Tally, Fail> {
    let mut tally = Tally::default();
    for _ in 0..count {
        let nodes = dice.one_to(NODES);
        let arcs = dice.up_to(ARCS);
        let reach = Reach::any(dice);
        let mut rows = rows::<C>(rt.alloc(), dice, nodes, arcs, reach)?;
        let below = Lockout::new(ArcTable::new(nodes, arcs, &mut rows));
        if dice.once_in(2) {
            try_locked(rt, dice, below, reach, &mut tally)?;
        } else {
            try_locked(rt, dice, Lockout::new(below), reach, &mut tally)?;
        }
    }
    Ok(tally)
}
