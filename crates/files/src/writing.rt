// Writing a network file: the text of an arc table into lent bytes.

ghost use Rattle.std.specs.Prelude.{◌≡◌, ℕ, ◌≤◌, min, length, take, IfOk, Ok};
ghost use Rattle.std.specs.List.{flat_map};
ghost use Rattle.networks.specs.Limits.{most_counted};
ghost use Rattle.networks.specs.Answers.{refusal, said, answer, unless};
ghost use Rattle.makes.specs.Tables.{table_net};
ghost use Rattle.files.specs.Tables.{table_in};
ghost use Rattle.files.specs.Texts.{header_text, cost_text, arc_text, row_of, net_counts, net_rows, net_text};
ghost use Rattle.files.specs.Sheets.{over, written, inked};
ghost use Rattle.files.specs.Pens.{sheet};
ghost use Rattle.files.specs.Stopping.{unfit_stop, write_stop};

use crate::kinds::FileCost;
use crate::pen::Pen;
use flows::{arcs_fault, arcs_of};
use makes::ArcTable;
use networks::{Arc, MOST_ARCS, Network, Stop, check_counts};

// The line of counts.
fn write_header(pen: &mut Pen, nodes: usize, arcs: usize, tiers: usize)
    ensures same_reference { pen.new.out.ghost_name ≡ pen.old.out.ghost_name }
    ensures is { sheet pen.new ≡ inked (header_text (record { nodes = nodes; arcs = arcs; tiers = tiers })) (sheet pen.old) }
{
    pen.put(b"(net (nodes ");
    pen.put_count(nodes);
    pen.put(b") (arcs ");
    pen.put_count(arcs);
    pen.put(b") (tiers ");
    pen.put_count(tiers);
    pen.end();
}

// The numbers of a cost.
fn write_cost<C: FileCost>(pen: &mut Pen, cost: C)
    ensures same_reference { pen.new.out.ghost_name ≡ pen.old.out.ghost_name }
    ensures is { sheet pen.new ≡ inked (cost_text C.FileCost.numbers cost) (sheet pen.old) }
{
    pen.put_number(cost.first());
    if C::tiers() > 1 {
        pen.put(b" ");
        pen.put_number(cost.second());
    }
}

// The line of an arc.
fn write_arc<C: FileCost>(pen: &mut Pen, arc: Arc<C>)
    ensures same_reference { pen.new.out.ghost_name ≡ pen.old.out.ghost_name }
    ensures is { sheet pen.new ≡ inked (arc_text C.FileCost.numbers (row_of arc)) (sheet pen.old) }
{
    pen.put(b"(arc (from ");
    pen.put_count(arc.from);
    pen.put(b") (to ");
    pen.put_count(arc.to);
    pen.put(b") (lo ");
    pen.put_number(i64::from(arc.lo));
    pen.put(b") (hi ");
    pen.put_number(i64::from(arc.hi));
    pen.put(b") (cost ");
    write_cost(pen, arc.cost);
    pen.end();
}

// The lines of a table's arcs.
fn write_arcs<C: FileCost>(pen: &mut Pen, table: &ArcTable<C>)
    ensures same_reference { pen.new.out.ghost_name ≡ pen.old.out.ghost_name }
    ensures is { sheet pen.new ≡ inked (flat_map (arc_text C.FileCost.numbers) (net_rows (table_net table.now))) (sheet pen.old) }
{
    for arc in arcs_of(table) {
        write_arc(pen, arc);
    }
}

// The text of a table, as far as it falls within the bytes, and how long it is in whole.
fn write_text<C: FileCost>(table: &ArcTable<C>, out: &mut [u8]) -> usize
    ensures answers { result ≡ min (length (net_text C.FileCost.numbers (table_net table.now))) most_counted }
    ensures leaves { out.new ≡ over out.old 0 (net_text C.FileCost.numbers (table_net table.now)) }
{
    let mut pen = Pen::new(out);
    write_header(&mut pen, table.nodes(), table.arcs(), C::tiers());
    write_arcs(&mut pen, table);
    pen.count()
}

// Why a table cannot be written, but for want of room.
fn check_fit<C: FileCost>(table: &ArcTable<C>) -> Result<(), Stop>
    ensures { refusal result ≡ unfit_stop C.CostKind.kind.size (table_net table.now) }
{
    check_counts(table.nodes(), table.arcs())?;
    arcs_fault(table, &[0; MOST_ARCS][..table.arcs()])
}

/// Writes a table as a network file into the first of the lent bytes, and answers how many it takes: read again,
/// they give just its rows. All is counted before a byte is written, so that where it refuses the bytes are as they
/// were.
pub fn write_table<C: FileCost>(table: &ArcTable<C>, out: &mut [u8]) -> Result<usize, Stop>
    ensures answers { said result ≡ answer (write_stop C.CostKind.kind.size C.FileCost.numbers (table_net table.now) (length out.old))
        (length (net_text C.FileCost.numbers (table_net table.now))) }
    ensures leaves { out.new ≡ unless (write_stop C.CostKind.kind.size C.FileCost.numbers (table_net table.now) (length out.old))
        out.old (written (net_text C.FileCost.numbers (table_net table.now)) out.old) }
    ensures back { IfOk result (λ n. (room : ℕ) → length (table_net table.now).arcs ≤ room
        → table_in C.FileCost.numbers room (take n out.new) ≡ Ok (net_counts C.FileCost.numbers (table_net table.now), net_rows (table_net table.now))) }
{
    check_fit(table)?;
    if write_text(table, &mut []) > out.len() {
        return Err(Stop::Lengths);
    }
    Ok(write_text(table, out))
}
