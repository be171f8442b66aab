// The arc table: a network kept as rows in a lent table.

ghost use Rattle.std.specs.Prelude.{◌≡◌, ℕ, length, refl};
ghost use Rattle.networks.specs.Answers.{refusal};
ghost use Rattle.makes.specs.Tables.{table_stop, table_net, rows_net, row_arc};

use crate::kept::{ArcRow, Kept, ShapedRow};
use costs::CostKind;
use networks::{Arc, Bounds, Stop, check_counts};

// One arc: its ends, its bounds and its cost.
#[derive(Clone, Copy, Debug, PartialEq, Eq)]
pub struct Row<C> {
    pub from: usize,
    pub to: usize,
    pub lo: i32,
    pub hi: i32,
    pub cost: C,
}

impl<C> Row<C> {
    pub fn new(from: usize, to: usize, lo: i32, hi: i32, cost: C) -> Row<C>
        ensures { result ≡ record { from = from; to = to; lo = lo; hi = hi; cost = cost } }
    {
        Row {
            from,
            to,
            lo,
            hi,
            cost,
        }
    }
}

// How many nodes and arcs a table is to have.
#[derive(Clone, Copy, Debug, PartialEq, Eq)]
pub struct Counts {
    pub nodes: usize,
    pub arcs: usize,
}

// As many rows as the shape has arcs.
impl<C> ShapedRow for Row<C> {
    type Shape = Counts;

    ghost stop_of = { λ s rows. table_stop s.nodes s.arcs rows };

    ghost nodes_of = { λ s. s.nodes };

    fn nodes(shape: Counts, rows: usize) -> Result<usize, Stop> {
        check_counts(shape.nodes, shape.arcs)?;
        if rows != shape.arcs {
            return Err(Stop::Lengths);
        }
        Ok(shape.nodes)
    }
}

// A row has its ends in it, whatever its number.
impl<C: CostKind> ArcRow for Row<C> {
    type Cost = C;

    ghost arc_of = { λ s a r. row_arc r };

    ghost free = { λ s a r. refl };

    ghost loose = { λ s a r. refl };

    fn as_arc(self, _shape: Counts, _i: usize) -> Arc<C> {
        Arc::free(self.from, self.to, self.lo, self.hi, self.cost)
    }

    fn rebound(self, b: Bounds) -> Row<C> {
        Row {
            lo: b.lo(),
            hi: b.hi(),
            ..self
        }
    }

    fn recost(self, c: C) -> Row<C> {
        Row { cost: c, ..self }
    }
}

pub type ArcTable<'a, C> = Kept<'a, Counts, Row<C>>;

impl<'a, C> Kept<'a, Counts, Row<C>> {
    // Why a table of these counts cannot be made of these rows, if so.
    pub fn check(nodes: usize, arcs: usize, rows: &[Row<C>]) -> Result<(), Stop>
        ensures { refusal result ≡ table_stop nodes arcs (length rows.now) }
    {
        Row::<C>::nodes(Counts { nodes, arcs }, rows.len())?;
        Ok(())
    }

    // The table; one of unfit parts shows no node and no arc.
    #[tactic(auto, using(crate::proofs::Tables::as_they_stand))]
    pub fn new(nodes: usize, arcs: usize, rows: &'a mut [Row<C>]) -> ArcTable<'a, C>
        ensures shows { table_net result ≡ rows_net nodes arcs rows.old }
        ensures keeps { result.rows.now ≡ rows.old }
        ensures same_reference { result.rows.ghost_name ≡ rows.entry.ghost_name }
    {
        Kept::shaped(Counts { nodes, arcs }, rows)
    }
}
