// Reading a network file: the counts of its first line, and its arcs into lent rows.

ghost use Rattle.std.specs.Prelude.{◌≡◌, ℕ, ◌≤◌, List, ◌++◌, length, take, drop, IfOk, Ok, None};
ghost use Rattle.flows.specs.Stops.{open_stop};
ghost use Rattle.makes.specs.declared.table.Row.{Row};
ghost use Rattle.makes.specs.Tables.{rows_net};
ghost use Rattle.lines.specs.Readings.{ended};
ghost use Rattle.files.specs.Stopping.{no_flow};
ghost use Rattle.files.specs.Spelling.{Spells};
ghost use Rattle.files.specs.Tables.{Counts, counts, header_in, shown_header, in_file, counts_of, rows_in, passed, shown_rows, body_in, granted, table_in, header_of, rows_after};

use crate::arcs::read_arc;
use crate::faults::{FileFault, ReadStop};
use crate::header::Header;
use crate::kinds::FileCost;
use lines::Cursor;
use makes::Row;
use networks::{MOST_ARCS, MOST_NODES, Stop};
use tokens::LineFault;

// The most bytes of a file that a program takes.
pub const MOST_BYTES: usize = 65_536;

// The counts of the first line; the tiers are from the least to the most.
fn header_line(cursor: &mut Cursor, least: usize, most: usize) -> Result<Header, LineFault>
    requires { (1 ≤ least) × ((least ≤ most) × (most ≤ 2)) }
    ensures { ended (shown_header result) cursor.new ≡ header_in least most cursor.old }
{
    cursor.start(b"net")?;
    let nodes = cursor.count(b"nodes", 1, MOST_NODES)?;
    cursor.expect(b" ")?;
    let arcs = cursor.count(b"arcs", 0, MOST_ARCS)?;
    cursor.expect(b" ")?;
    let tiers = cursor.count(b"tiers", least, most)?;
    cursor.finish()?;
    Ok(Header { nodes, arcs, tiers })
}

// The counts of a file's first line, with tiers 1 or 2; a file with too many bytes is refused first.
pub fn read_header(text: &[u8]) -> Result<Header, FileFault>
    ensures { shown_header result ≡ counts_of text.now }
{
    if text.len() > MOST_BYTES {
        return Err(FileFault::Long);
    }
    Ok(header_line(&mut Cursor::new(text), 1, 2)?)
}

// Looks at a line for each arc.
fn check_rows<C: FileCost>(cursor: &mut Cursor, header: Header) -> Result<(), LineFault>
    ensures { ended result cursor.new ≡ passed (rows_in C.FileCost.numbers header.nodes header.arcs cursor.old) }
{
    for _ in 0..header.arcs {
        read_arc::<C>(cursor, header)?;
    }
    Ok(())
}

// Looks at all lines after the first; no byte may stand after the last.
fn check_body<C: FileCost>(mut cursor: Cursor, header: Header) -> Result<(), FileFault>
    ensures { result ≡ granted (body_in C.FileCost.numbers (counts header) cursor.entry) }
{
    check_rows::<C>(&mut cursor, header)?;
    if cursor.left() > 0 {
        return Err(FileFault::After(cursor.line()));
    }
    Ok(())
}

// Reads a line into each row.
fn read_rows<C: FileCost>(
    cursor: &mut Cursor,
    header: Header,
    rows: &mut [Row<C>],
) -> Result<(), LineFault>
    ensures { ended (shown_rows rows.new result) cursor.new ≡ rows_in C.FileCost.numbers header.nodes (length rows.old) cursor.old }
{
    for row in rows.iter_mut() {
        *row = read_arc(cursor, header)?;
    }
    Ok(())
}

// Reads a whole file into the first of the lent rows. All lines are looked at before a row is
// written, so that where it refuses the rows are as they were.
fn read_file<C: FileCost>(text: &[u8], rows: &mut [Row<C>]) -> Result<Header, ReadStop>
    ensures within { IfOk result (λ h. h.arcs ≤ length rows.old) }
    ensures is { shown_header result ≡ header_of (table_in C.FileCost.numbers (length rows.old) text.now) }
    ensures leaves { rows.new ≡ rows_after rows.old (table_in C.FileCost.numbers (length rows.old) text.now) }
{
    let tiers = C::tiers();
    let mut cursor = Cursor::new(text);
    let header = header_line(&mut cursor, tiers, tiers)?;
    if header.arcs > rows.len() {
        return Err(Stop::Lengths.into());
    }
    check_body::<C>(cursor.again(), header)?;
    read_rows(&mut cursor, header, &mut rows[..header.arcs])?;
    Ok(header)
}

/// Reads a network file into the first of the lent rows: what is read was spelled so, what is spelled so is read, and a
/// table of what was read opens at no flow. Where it refuses the rows are as they were.
pub fn read_table<C: FileCost>(text: &[u8], rows: &mut [Row<C>]) -> Result<Header, ReadStop>
    ensures within { IfOk result (λ h. h.arcs ≤ length rows.old) }
    ensures is { shown_header result ≡ header_of (table_in C.FileCost.numbers (length rows.old) text.now) }
    ensures leaves { rows.new ≡ rows_after rows.old (table_in C.FileCost.numbers (length rows.old) text.now) }
    ensures spelled { IfOk result (λ h.
        Spells C.CostKind.kind.size C.FileCost.numbers (counts h) (take h.arcs rows.new) text.now) }
    ensures again { (h : Counts) (xs : List (Row C)) → h.arcs ≤ length rows.old
        → Spells C.CostKind.kind.size C.FileCost.numbers h xs text.now
        → (shown_header result ≡ Ok h) × (rows.new ≡ xs ++ drop h.arcs rows.old) }
    ensures opens { IfOk result (λ h. open_stop C.CostKind.kind.size
        (rows_net h.nodes h.arcs (take h.arcs rows.new)) (no_flow h.arcs) h.nodes h.nodes h.nodes ≡ None) }
{
    read_file(text, rows)
}
