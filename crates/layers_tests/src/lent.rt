// Rows that were lent to a table, after the table is let go, and the layers over it.

ghost use Rattle.std.specs.Prelude.{◌≡◌, ℕ, length, None};
ghost use Rattle.networks.specs.Nets.{rebounded};
ghost use Rattle.makes.specs.Tables.{table_stop, rows_net};

use costs::Plain;
use hours::{HourRow, new_chain};
#[cfg(test)]
use layers::Draft;
use makes::{ArcTable, Row};
use networks::{Bounds, Lockout, Network, Stop};
#[cfg(test)]
use std::test::Fail;

// Asks a table.
fn ask_table(rows: &mut [Row<Plain>]) -> usize
    ensures value { result ≡ length (rows_net 2 2 rows.old).arcs }
    ensures leaves { rows.new ≡ rows.old }
{
    let table = ArcTable::new(2, 2, rows);
    table.arcs()
}

// Asks an hour chain.
fn ask_chain(rows: &mut [HourRow<Plain>]) -> usize
    ensures { rows.new ≡ rows.old }
{
    let chain = new_chain(2, rows);
    chain.arcs()
}

// Rebounds an arc of a table.
fn rebound_first(rows: &mut [Row<Plain>], b: Bounds) -> Result<(), Stop>
    ensures { table_stop 2 2 (length rows.old) ≡ None
        → rows_net 2 2 rows.new ≡ rebounded (rows_net 2 2 rows.old) 1 b.lo b.hi }
{
    let mut table = ArcTable::new(2, 2, rows);
    table.rebound(1, b)
}

// Asks a pile of lock-outs over a network that is lent.
fn ask_pile<N: Network>(net: &mut N) -> usize
    ensures { net.new ≡ net.old }
{
    let pile = Lockout::new(Lockout::new(net));
    pile.arcs()
}

// Asks a pile over a table.
fn ask_piled_table(rows: &mut [Row<Plain>]) -> usize
    ensures { rows.new ≡ rows.old }
{
    let mut table = ArcTable::new(2, 2, rows);
    ask_pile(&mut table)
}

#[test]
fn rows_of_a_table(rt: HostRuntime) -> Result<(), Fail> {
    let row = Row::new(1, 2, 0, 5, Plain { units: 3 });
    let mut rows = [row; 2];
    assert_eq!(rt; ask_table(&mut rows), 2);
    assert_eq!(rt; ask_piled_table(&mut rows), 2);
    assert_eq!(rt; rows, [row; 2]);
    assert_eq!(rt; rebound_first(&mut rows, Bounds::new(1, 4)?), Ok(()));
    assert_eq!(rt; rows, [Row::new(1, 2, 1, 4, Plain { units: 3 }), row]);
    Ok(())
}

#[test]
fn rows_beneath_a_pile(rt: HostRuntime) -> Result<(), Fail> {
    let row = Row::new(1, 2, 0, 5, Plain { units: 3 });
    let mut rows = [row; 2];
    let b = Bounds::new(1, 4)?;
    {
        let table = Lockout::new(ArcTable::new(2, 2, &mut rows));
        let mut net = Draft::new(table, b, Plain { units: 0 }).close();
        assert_eq!(rt; net.rebound(2, b), Ok(()));
        assert_eq!(rt; net.recost(1, Plain { units: 8 }), Ok(()));
    }
    let first = Row::new(1, 2, 0, 5, Plain { units: 8 });
    assert_eq!(rt; rows, [first, Row::new(1, 2, 1, 4, Plain { units: 3 })]);
    Ok(())
}

#[test]
fn rows_of_a_chain(rt: HostRuntime) -> Result<(), Fail> {
    let row = HourRow {
        lo: 0,
        hi: 8,
        cost: Plain { units: 0 },
    };
    let mut rows = [row; 10];
    assert_eq!(rt; ask_chain(&mut rows), 10);
    let b = Bounds::new(1, 4)?;
    assert_eq!(rt; new_chain(2, &mut rows).rebound(10, b), Ok(()));
    assert_eq!(rt; new_chain(3, &mut rows).rebound(9, b), Err(Stop::Absent(9)));
    assert_eq!(rt; rows[8], row);
    assert_eq!(rt;
        rows[9],
        HourRow {
            lo: 1,
            hi: 4,
            ..row
        }
    );
    Ok(())
}
