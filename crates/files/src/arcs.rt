// The line of an arc: its ends, its bounds and its cost.

ghost use Rattle.std.specs.Prelude.{◌≡◌};
ghost use Rattle.lines.specs.Readings.{ended};
ghost use Rattle.files.specs.Costs.{cost_in};
ghost use Rattle.files.specs.Arcs.{arc_in};

use crate::header::Header;
use crate::kinds::FileCost;
use lines::Cursor;
use makes::Row;
use tokens::LineFault;

// The cost, in brackets after its name.
fn read_cost<C: FileCost>(cursor: &mut Cursor) -> Result<C, LineFault>
    ensures { ended result cursor.new ≡ cost_in C.FileCost.numbers cursor.old }
{
    cursor.start(b"cost")?;
    let cost = C::read(cursor)?;
    cursor.expect(b")")?;
    Ok(cost)
}

// The row that the line says; its ends are among the header's nodes.
pub fn read_arc<C: FileCost>(cursor: &mut Cursor, header: Header) -> Result<Row<C>, LineFault>
    ensures { ended result cursor.new ≡ arc_in C.FileCost.numbers header.nodes cursor.old }
{
    cursor.start(b"arc")?;
    let from = cursor.count(b"from", 1, header.nodes)?;
    cursor.expect(b" ")?;
    let to = cursor.count(b"to", 1, header.nodes)?;
    cursor.expect(b" ")?;
    let bounds = cursor.bounds()?;
    cursor.expect(b" ")?;
    let cost = read_cost(cursor)?;
    cursor.finish()?;
    Ok(Row::new(from, to, bounds.lo(), bounds.hi(), cost))
}
