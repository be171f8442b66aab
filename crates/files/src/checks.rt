// The check of a file: its table is read and written back.

ghost use Rattle.std.specs.Prelude.{◌≡◌, ℕ, length, IfOk};
ghost use Rattle.files.specs.Faults.{refusal_line};
ghost use Rattle.files.specs.Tables.{counts_of, shown_rows, table_in};
ghost use Rattle.files.specs.Checks.{checked, check_text};

use crate::faults::ReadStop;
use crate::header::Header;
use crate::kinds::FileCost;
use crate::tables::{read_header, read_table};
use crate::writing::write_table;
use costs::{Plain, TwoTier};
use makes::{ArcTable, Row};
use std::alloc::{AllocError, Global};

// Reads a file into the rows, and writes their table: the same bytes.
fn rewrite<C: FileCost>(text: &[u8], rows: &mut [Row<C>], out: &mut [u8]) -> Result<(), ReadStop>
    requires { length out.old ≡ length text.now }
    ensures { shown_rows out.new result ≡ shown_rows text.now (table_in C.FileCost.numbers (length rows.old) text.now) }
{
    let Header { nodes, arcs, .. } = read_table(text, rows)?;
    let table = ArcTable::new(nodes, arcs, &mut rows[..arcs]);
    write_table(&table, out)?;
    Ok(())
}

// The line of a refusal.
fn refusal(heap: Global, stop: ReadStop) -> Result<Vec<u8>, AllocError>
    ensures { IfOk result (λ out. out.items ≡ refusal_line stop) }
{
    let line = format!(in heap; "(refused {stop})\n")?;
    Ok(line.into_bytes())
}

fn check_table<C: FileCost>(heap: Global, text: &[u8], arcs: usize) -> Result<Vec<u8>, AllocError>
    ensures { IfOk result (λ out. out.items ≡ checked text.now (table_in C.FileCost.numbers arcs text.now)) }
{
    let mut rows = vec![in heap; Row::new(0, 0, 0, 0, C::zero()); arcs]?;
    let mut out = vec![in heap; 0u8; text.len()]?;
    match rewrite(text, &mut rows, &mut out) {
        Ok(()) => Ok(out),
        Err(stop) => refusal(heap, stop),
    }
}

/// The text of a check: the file's own bytes, read and written back, or the line of its refusal. It fails only where
/// memory does.
pub fn check(heap: Global, text: &[u8]) -> Result<Vec<u8>, AllocError>
    ensures { IfOk result (λ out. out.items ≡ check_text text.now (counts_of text.now)) }
{
    match read_header(text) {
        Ok(header) if header.tiers == 2 => check_table::<TwoTier>(heap, text, header.arcs),
        Ok(header) => check_table::<Plain>(heap, text, header.arcs),
        Err(fault) => refusal(heap, fault.into()),
    }
}
