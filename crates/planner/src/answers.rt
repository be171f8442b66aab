// From the bytes of a network file to the text of its answer.

ghost use Rattle.std.specs.Prelude.{◌≡◌, ℕ, ◌+◌, ◌≤◌, [], length, replicate, take, pos, Ok};
ghost use Rattle.std.specs.String.{string_bytes, string_len, string_capacity};
ghost use Rattle.files.specs.Tables.{counts, counts_of, table_in};
ghost use Rattle.planner.specs.Texts.{text_room};
ghost use Rattle.planner.specs.Files.{TableText, FileText};

use crate::room::{Room, Tables, fill};
use crate::settling::settle_file;
use crate::texts::{write_answer, write_refusal};
use costs::{CostKind, Plain, TwoTier};
use files::{FileCost, Header, read_header};
use makes::Row;
use runs::{Call, Outcome};

// Settles a file with these counts over the lent tables, and writes the answer.
fn write_settled<C: FileCost>(
    out: &mut String,
    text: &[u8],
    header: Header,
    rows: &mut [Row<C>],
    flow: &mut [i32],
    needs: &mut [i32],
    prices: &mut [C],
    marks: &mut [u8],
    calls: &mut [Call<C>],
    outcomes: &mut [Outcome<C>],
)
    requires first { counts_of text.now ≡ Ok (counts header) }
    requires empty { string_bytes out.old ≡ [] }
    requires sheet { string_len out.old + text_room ≤ string_capacity out.old }
    requires rows { length rows.old ≡ header.arcs }
    requires flow { flow.old ≡ replicate header.arcs (pos 0) }
    requires needs { needs.old ≡ replicate header.nodes (pos 0) }
    requires prices { prices.old ≡ replicate header.nodes C.CostKind.kind.zero }
    requires marks { marks.old ≡ replicate header.nodes 0 }
    requires one { length calls.old ≡ 1 }
    requires room { length outcomes.old ≡ 1 }
    ensures { TableText C.CostKind.kind C.FileCost.numbers
        (table_in C.FileCost.numbers header.arcs text.now) (string_bytes out.new) }
{
    let settled = settle_file(text, rows, flow, needs, prices, marks, calls, outcomes);
    write_answer(out, settled, flow, marks);
}

// The same over tables of the largest plan: as much of each as the counts say, with zeros for a start.
fn write_plan<C: FileCost>(out: &mut String, text: &[u8], header: Header, tables: Tables<C>)
    requires first { counts_of text.now ≡ Ok (counts header) }
    requires empty { string_bytes out.old ≡ [] }
    requires sheet { string_len out.old + text_room ≤ string_capacity out.old }
    ensures { TableText C.CostKind.kind C.FileCost.numbers
        (table_in C.FileCost.numbers header.arcs text.now) (string_bytes out.new) }
{
    let Tables {
        mut rows,
        mut flow,
        mut needs,
        mut prices,
        mut marks,
        mut calls,
        mut outcomes,
    } = tables;
    let flow = &mut flow[..header.arcs];
    let needs = &mut needs[..header.nodes];
    let prices = &mut prices[..header.nodes];
    let marks = &mut marks[..header.nodes];
    fill(flow, 0);
    fill(needs, 0);
    fill(prices, C::zero());
    fill(marks, 0);
    write_settled(
        out,
        text,
        header,
        &mut rows[..header.arcs],
        flow,
        needs,
        prices,
        marks,
        &mut calls,
        &mut outcomes,
    );
}

// The text for a file, over tables and a text that were asked for.
pub(crate) fn text_for(
    file: &[u8],
    plain: Tables<Plain>,
    two_tier: Tables<TwoTier>,
    mut out: String,
) -> String
    requires empty { string_bytes out ≡ [] }
    requires sheet { string_len out + text_room ≤ string_capacity out }
    ensures { FileText file.now (string_bytes result) }
{
    match read_header(file) {
        Ok(header) if header.tiers == 2 => write_plan(&mut out, file, header, two_tier),
        Ok(header) => write_plan(&mut out, file, header, plain),
        Err(fault) => write_refusal(&mut out, fault.into()),
    }
    out
}

/// The answer to a file with these bytes. It needs no memory but the room, and never fails.
pub fn answer(room: Room, file: &[u8]) -> String
    ensures { FileText file.now (string_bytes result) }
{
    let Room {
        plain,
        two_tier,
        text,
        ..
    } = room;
    text_for(file, plain, two_tier, text)
}
