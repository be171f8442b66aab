// A network that is kept in lent rows, whatever its rows are: the arc table is one, and so is the hour chain.

ghost use Rattle.std.specs.Prelude.{◌≡◌, ℕ, ◌+◌, false, List, [], ◌∷◌, length, Some, None, Option};
ghost use Rattle.std.specs.Option.{ok_or};
ghost use Rattle.networks.specs.declared.network.Arc.{Arc};
ghost use Rattle.networks.specs.declared.stops.Stop.TheVariants.{Absent};
ghost use Rattle.networks.specs.Answers.{Told, said, answer, unless};
ghost use Rattle.networks.specs.Nets.{with_bounds, with_cost};
ghost use Rattle.makes.specs.Bases.{place_of as place_of_number, base_net, unfit_net, arcs_from, shown_rows, kept_net};

use crate::place_of;
use costs::CostKind;
use networks::{Arc, Bounds, COST_LIMIT, Network, Stop, Tag};

// A row that a network of some shape is kept in, whatever it costs.
pub trait ShapedRow {
    // What a network is told by, beside its rows: its counts.
    type Shape: Copy;

    ghost stop_of: { Self.Shape → ℕ → Option Told };

    ghost nodes_of: { Self.Shape → ℕ };

    // How many nodes a network of this shape has, or why so many rows are not fit for it.
    fn nodes(shape: Self::Shape, rows: usize) -> Result<usize, Stop>
        ensures { said result ≡ answer (stop_of shape rows) (nodes_of shape) };
}

// A row that is an arc by its number and the shape of its network, with nothing held or fixed.
pub trait ArcRow: Copy + ShapedRow {
    type Cost: CostKind;

    ghost arc_of: { Self.Shape → ℕ → Self → Arc Self.Cost };

    // The arc that the row is at a place, counted from 0, of a network of this shape.
    fn as_arc(self, shape: Self::Shape, i: usize) -> Arc<Self::Cost>
        ensures { result ≡ arc_of shape (i + 1) self };

    // The row with other bounds.
    fn rebound(self, b: Bounds) -> Self
        ensures { (s : Self.Shape) (a : ℕ) → arc_of s a result ≡ with_bounds b.lo b.hi (arc_of s a self) };

    // The row at another cost.
    fn recost(self, c: Self::Cost) -> Self
        ensures { (s : Self.Shape) (a : ℕ) → arc_of s a result ≡ with_cost c (arc_of s a self) };

    ghost free: { (s : Self.Shape) (a : ℕ) (r : Self) → (arc_of s a r).held ≡ false };

    ghost loose: { (s : Self.Shape) (a : ℕ) (r : Self) → (arc_of s a r).fixed ≡ false };
}

// There is no count of nodes where the rows are not fit, and then nothing is shown of them.
pub struct Kept<'a, S, R> {
    nodes: Option<usize>,
    shape: S,
    rows: &'a mut [R],
}

// The rows are left as they are.
impl<S: Drop, R> Drop for Kept<'_, S, R> {
    fn drop(self)
        ensures { self.exit.1.1.0.now ≡ self.entry.rows.now }
    {
        let Kept {
            nodes: _,
            shape: _,
            rows: _,
        } = self;
    }
}

impl<'a, R: ShapedRow> Kept<'a, R::Shape, R> {
    // These rows, kept for a network of this shape, whatever they cost; there is no count of nodes where they are
    // not fit for it.
    pub fn shaped(shape: R::Shape, rows: &'a mut [R]) -> Kept<'a, R::Shape, R>
        ensures counts { result.nodes ≡ unless (R.stop_of shape (length rows.old)) None (Some (R.nodes_of shape)) }
        ensures same_shape { result.shape ≡ shape }
        ensures keeps { result.rows.now ≡ rows.old }
        ensures same_reference { result.rows.ghost_name ≡ rows.entry.ghost_name }
    {
        Kept {
            nodes: R::nodes(shape, rows.len()).ok(),
            shape,
            rows,
        }
    }
}

impl<'a, R: ArcRow> Kept<'a, R::Shape, R> {
    // The network of this shape that is kept in these rows; where they are not fit for it, it shows none of them.
    pub fn over(shape: R::Shape, rows: &'a mut [R]) -> Kept<'a, R::Shape, R>
        ensures shows { kept_net R.arc_of result ≡ unless (R.stop_of shape (length rows.old))
            unfit_net
            (base_net (R.nodes_of shape) (arcs_from (R.arc_of shape) 1 rows.old)) }
        ensures keeps { result.rows.now ≡ rows.old }
        ensures same_reference { result.rows.ghost_name ≡ rows.entry.ghost_name }
    {
        Kept::shaped(shape, rows)
    }
}

impl<S, R> Kept<'_, S, R> {
    // How many rows are shown.
    fn shown(&self) -> usize
        ensures { result ≡ length (shown_rows self.now) }
    {
        match self.nodes {
            Some(_) => self.rows.len(),
            None => 0,
        }
    }

    // The place, counted from 0, of row a.
    fn place(&self, a: usize) -> Result<usize, Stop>
        ensures { result ≡ ok_or (place_of_number (length (shown_rows self.now)) a) (Absent a) }
    {
        place_of(self.shown(), a).ok_or(Stop::Absent(a))
    }
}

impl<R: ArcRow> Network for Kept<'_, R::Shape, R> {
    type Cost = R::Cost;

    ghost meaning = { kept_net R.arc_of };

    ghost references = { λ s. s.rows.ghost_name ∷ [] };

    fn nodes(&self) -> usize {
        self.nodes.unwrap_or(0)
    }

    fn arcs(&self) -> usize {
        self.shown()
    }

    fn lockouts(&self) -> usize {
        0
    }

    fn arc(&self, a: usize) -> Option<Arc<R::Cost>> {
        let i = place_of(self.shown(), a)?;
        Some(self.rows[i].as_arc(self.shape, i))
    }

    fn rebound(&mut self, a: usize, b: Bounds) -> Result<(), Stop> {
        let i = self.place(a)?;
        self.rows[i] = self.rows[i].rebound(b);
        Ok(())
    }

    fn recost(&mut self, a: usize, c: R::Cost) -> Result<(), Stop> {
        let i = self.place(a)?;
        if c.size() > COST_LIMIT {
            return Err(Stop::Cost(a));
        }
        self.rows[i] = self.rows[i].recost(c);
        Ok(())
    }

    fn take_out(&mut self, _layer: usize, a: usize) -> Result<Tag, Stop> {
        Err(Stop::Absent(a))
    }

    fn hand_back(&mut self, _layer: usize, tag: Tag) -> Result<(), (Stop, Tag)> {
        Err((Stop::NotOut(tag.arc()), tag))
    }
}
