//! Tables written as files, read back, and damaged by one byte.

use crate::dice::Dice;
use crate::draws::{Reach, rows};
use crate::printing::print_network;
use costs::CostKind;
use files::{FileCost, read_table, write_table};
use makes::{ArcTable, Row};
use networks::MOST_ARCS;
use std::alloc::{AllocError, Global};
use std::test::Fail;

/// As many bytes as the text of a table of these trials can have.
const ROOM: usize = 8_000;

/// What a damaged byte can become.
const BYTES: &[u8] = b"0123456789-() acefhilnorst\nxZ";

/// How many tables were tried and agreed, and how many of the damaged texts were refused.
#[derive(Clone, Copy, Default)]
pub struct Copies {
    pub tried: u64,
    pub agreed: u64,
    pub refused: u64,
}

// Reads a text as a table, and writes the table into the room; none where it is refused.
fn copy<C: FileCost>(
    heap: Global,
    text: &[u8],
    room: &mut [u8],
) -> Result<Option<usize>, AllocError> {
    let mut rows = vec![in heap; Row::new(0, 0, 0, 0, C::zero()); MOST_ARCS]?;
    let Ok(header) = read_table(text, &mut rows) else {
        return Ok(None);
    };
    let arcs = header.arcs.min(MOST_ARCS);
    let table = ArcTable::<C>::new(header.nodes, header.arcs, &mut rows[..arcs]);
    Ok(write_table(&table, room).ok())
}

// The text is that of the copy in the room.
fn is_copied(text: &[u8], room: &[u8], count: Option<usize>) -> bool {
    count.is_some_and(|n| n <= room.len() && &room[..n] == text)
}

// One table: its text is read to a table of that text, and so is a damaged one that is not refused.
fn try_table<C: FileCost>(
    heap: Global,
    dice: &mut Dice,
    table: &ArcTable<C>,
    copies: &mut Copies,
) -> Result<bool, AllocError> {
    let mut text = vec![in heap; 0u8; ROOM]?;
    let mut room = vec![in heap; 0u8; ROOM]?;
    let Ok(count) = write_table(table, &mut text) else {
        return Ok(false);
    };
    let text = &mut text[..count.min(ROOM)];
    let copied = copy::<C>(heap, text, &mut room)?;
    if !is_copied(text, &room, copied) {
        return Ok(false);
    }
    let place = dice.up_to(count.saturating_sub(1));
    let byte = BYTES.get(dice.up_to(27)).copied().unwrap_or(b' ');
    if let Some(slot) = text.get_mut(place) {
        *slot = byte;
    }
    let damaged = copy::<C>(heap, text, &mut room)?;
    copies.refused = copies.refused.saturating_add(u64::from(damaged.is_none()));
    Ok(damaged.is_none() || is_copied(text, &room, damaged))
}

/// So many random tables.
pub fn try_texts<C: FileCost>(
    rt: &HostRuntime,
    dice: &mut Dice,
    count: usize,
    copies: &mut Copies,
) -> Result<(), Fail> {
    let heap = rt.alloc();
    for _ in 0..count {
        let nodes = dice.one_to(12);
        let arcs = dice.up_to(60);
        let reach = Reach::any(dice);
        let mut rows = rows::<C>(heap, dice, nodes, arcs, reach)?;
        let table = ArcTable::new(nodes, arcs, &mut rows);
        copies.tried = copies.tried.saturating_add(1);
        if try_table(heap, dice, &table, copies)? {
            copies.agreed = copies.agreed.saturating_add(1);
        } else {
            print_network(rt, &table)?;
        }
    }
    Ok(())
}
