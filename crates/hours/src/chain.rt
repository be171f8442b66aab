// The hour chain: a network of hours whose bounds and costs are kept in a lent table, and whose ends are worked out.

ghost use Rattle.std.specs.Prelude.{◌≡◌, ℕ, ◌+◌, ◌-◌, length, refl};
ghost use Rattle.networks.specs.Answers.{refusal};
ghost use Rattle.hours.specs.Hours.{chain_stop, chain_net, hours_net, hour_of as the_hour_of, source_of, ends, hour_arc};

use costs::CostKind;
use makes::{ArcRow, Kept, ShapedRow};
use networks::{Arc, Bounds, Stop};

// The most hours of a chain, and how many arcs each has.
const MOST_HOURS: usize = 48;

const ARCS: usize = 5;

// What the arcs of an hour stand for, in the order of their numbers.
#[derive(Clone, Copy)]
enum Source {
    Sun,
    Mains,
    Generator,
    Lamp,
    Battery,
}

// The bounds and the cost of one arc.
#[derive(Clone, Copy, Debug, PartialEq, Eq)]
pub struct HourRow<C> {
    pub lo: i32,
    pub hi: i32,
    pub cost: C,
}

// The hour of the arc at a place, counted from 0.
fn hour_of(i: usize) -> usize
    ensures { result ≡ the_hour_of (i + 1) }
{
    1 + i / ARCS
}

// The source of the arc at a place.
fn source_of(i: usize) -> Source
    ensures { result ≡ source_of (i + 1) }
{
    match i % ARCS {
        0 => Source::Sun,
        1 => Source::Mains,
        2 => Source::Generator,
        3 => Source::Lamp,
        _ => Source::Battery,
    }
}

// Where the arc at a place runs from and to over so many nodes, of which the last is what lies outside the hours;
// the last hour's battery leads back to the first hour.
fn ends(nodes: usize, i: usize) -> (usize, usize)
    ensures { result ≡ ends (nodes - 1) (the_hour_of (i + 1)) (source_of (i + 1)) }
{
    let last = nodes.saturating_sub(1);
    let outside = last + 1;
    let hour = hour_of(i);
    match source_of(i) {
        Source::Sun | Source::Mains | Source::Generator => (outside, hour),
        Source::Lamp => (hour, outside),
        Source::Battery if hour == last => (hour, 1),
        Source::Battery => (hour, hour + 1),
    }
}

// Five rows for each hour.
impl<C> ShapedRow for HourRow<C> {
    // How many nodes there are: the hours and what lies outside them.
    type Shape = usize;

    ghost stop_of = { λ n. chain_stop (n - 1) };

    ghost nodes_of = { λ n. n };

    fn nodes(nodes: usize, rows: usize) -> Result<usize, Stop> {
        check_counts(nodes.saturating_sub(1), rows)?;
        Ok(nodes)
    }
}

// The ends of a row are worked out from its number.
impl<C: CostKind> ArcRow for HourRow<C> {
    type Cost = C;

    ghost arc_of = { λ n. hour_arc (n - 1) };

    ghost free = { λ n a r. refl };

    ghost loose = { λ n a r. refl };

    fn as_arc(self, nodes: usize, i: usize) -> Arc<C> {
        let (from, to) = ends(nodes, i);
        Arc::free(from, to, self.lo, self.hi, self.cost)
    }

    fn rebound(self, b: Bounds) -> HourRow<C> {
        HourRow {
            lo: b.lo(),
            hi: b.hi(),
            ..self
        }
    }

    fn recost(self, c: C) -> HourRow<C> {
        HourRow { cost: c, ..self }
    }
}

// Its nodes are the hours and what lies outside them.
pub type HourChain<'a, C> = Kept<'a, usize, HourRow<C>>;

// Refuses hours that are too few or too many, and rows that are not five for each.
fn check_counts(hours: usize, rows: usize) -> Result<(), Stop>
    ensures { refusal result ≡ chain_stop hours rows }
{
    if !(1..=MOST_HOURS).contains(&hours) {
        return Err(Stop::Counts);
    }
    if rows != ARCS * hours {
        return Err(Stop::Lengths);
    }
    Ok(())
}

// Why a chain of so many hours cannot be made of these rows, if so.
pub fn check_chain<C>(hours: usize, rows: &[HourRow<C>]) -> Result<(), Stop>
    ensures { refusal result ≡ chain_stop hours (length rows.now) }
{
    check_counts(hours, rows.len())
}

// The chain; one of unfit parts shows no node and no arc.
pub fn new_chain<C>(hours: usize, rows: &mut [HourRow<C>]) -> HourChain<'_, C>
    ensures shows { chain_net result ≡ hours_net hours rows.old }
    ensures keeps { result.rows.now ≡ rows.old }
    ensures same_reference { result.rows.ghost_name ≡ rows.entry.ghost_name }
{
    let nodes = if hours <= MOST_HOURS { hours + 1 } else { 0 };
    Kept::shaped(nodes, rows)
}
