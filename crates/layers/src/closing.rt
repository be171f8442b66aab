// Closing: supplies and demands over any network, and the arc that closes the flow.

ghost use Rattle.std.specs.Prelude.{◌≡◌, ℕ, ◌≤◌};
ghost use Rattle.networks.specs.Limits.{most_nodes};
ghost use Rattle.networks.specs.Answers.{refusal};
ghost use Rattle.layers.specs.Closings.{closing_stop, closing_net, return_arc as return_arc_of, is_fit as is_fit_of, is_lower as is_lower_of, Lies};

use crate::entry::Entry;
use arrayvec::ArrayVec;
use costs::CostKind;
use networks::{Arc, Bounds, COST_LIMIT, MOST_ARCS, MOST_NODES, Network, Stop, Tag};
use std::cmp::Ordering;

// The most entries of a closing.
const MOST_ENTRIES: usize = 32;

// The entries are in the order in which they came, and the bounds and the cost are those of the return arc.
// A draft puts them in; nothing adds to them afterwards.
#[derive(Drop)]
pub struct Closing<N, C> {
    pub(crate) below: N,
    pub(crate) entries: ArrayVec<Entry, MOST_ENTRIES>,
    pub(crate) bounds: Bounds,
    pub(crate) cost: C,
}

// Where the arc of a number lies.
#[derive(Clone, Copy)]
enum Part {
    // Among the arcs below.
    Lower,
    // It is the arc of this entry, counted from 0.
    Own(usize),
    // It is the return arc.
    Back,
}

impl<N: Network> Closing<N, N::Cost> {
    // Why a closing cannot stand over this network, if so.
    pub fn check(below: &N) -> Result<(), Stop>
        ensures { refusal result ≡ closing_stop (N.Network.meaning below.now) }
    {
        // Two nodes and an arc come on top. The counts are asked for each arc that a pile shows, so they are
        // tested once, and not again with what comes on top.
        if !(1..=MOST_NODES - 2).contains(&below.nodes()) || below.arcs() >= MOST_ARCS {
            return Err(Stop::Counts);
        }
        Ok(())
    }

    // Whether the network below can be closed; if not, nothing is shown.
    fn is_fit(&self) -> bool
        ensures { result ≡ is_fit_of (N.Network.meaning self.now.below) }
    {
        Self::check(&self.below).is_ok()
    }

    // The arc that closes the flow.
    fn return_arc(&self) -> Arc<N::Cost>
        requires { (N.Network.meaning self.now.below).nodes ≤ most_nodes }
        ensures { result ≡ return_arc_of (N.Network.meaning self.now.below).nodes self.now.bounds self.now.cost }
    {
        let nodes = self.below.nodes();
        Arc::free(
            nodes + 1,
            nodes + 2,
            self.bounds.lo(),
            self.bounds.hi(),
            self.cost,
        )
    }

    // Whether arc a is one of those below.
    fn is_lower(&self, a: usize) -> bool
        ensures { result ≡ is_lower_of (N.Network.meaning self.now.below) a }
    {
        self.is_fit() && a <= self.below.arcs()
    }

    // Where arc a lies, if there is one.
    fn part(&self, a: usize) -> Option<Part>
        ensures { Lies (N.Network.meaning self.now.below) self.now.entries.items a result }
    {
        if !self.is_fit() {
            return None;
        }
        let arcs = self.below.arcs();
        if a <= arcs {
            return Some(Part::Lower);
        }
        let i = a - arcs - 1;
        match i.cmp(&self.entries.len()) {
            Ordering::Less => Some(Part::Own(i)),
            Ordering::Equal => Some(Part::Back),
            Ordering::Greater => None,
        }
    }
}

impl<N: Network> Network for Closing<N, N::Cost> {
    type Cost = N::Cost;

    ghost meaning = { λ s. closing_net (N.Network.meaning s.below) N.Cost.CostKind.kind.zero s.entries.items s.bounds s.cost };

    ghost references = { λ s. N.Network.references s.below };

    fn nodes(&self) -> usize {
        if !self.is_fit() {
            return 0;
        }
        self.below.nodes() + 2
    }

    fn arcs(&self) -> usize {
        if !self.is_fit() {
            return 0;
        }
        self.below.arcs() + self.entries.len() + 1
    }

    fn lockouts(&self) -> usize {
        if !self.is_fit() {
            return 0;
        }
        self.below.lockouts()
    }

    fn arc(&self, a: usize) -> Option<Arc<N::Cost>> {
        match self.part(a)? {
            Part::Lower => self.below.arc(a),
            Part::Own(i) => Some(self.entries[i].as_arc(self.below.nodes(), N::Cost::zero())),
            Part::Back => Some(self.return_arc()),
        }
    }

    fn rebound(&mut self, a: usize, b: Bounds) -> Result<(), Stop> {
        match self.part(a).ok_or(Stop::Absent(a))? {
            Part::Lower => self.below.rebound(a, b),
            Part::Own(i) => {
                self.entries[i].bounds = b;
                Ok(())
            }
            Part::Back => {
                self.bounds = b;
                Ok(())
            }
        }
    }

    fn recost(&mut self, a: usize, c: N::Cost) -> Result<(), Stop> {
        match self.part(a).ok_or(Stop::Absent(a))? {
            Part::Lower => self.below.recost(a, c),
            Part::Own(_) => Err(Stop::Fixed(a)),
            Part::Back if c.size() > COST_LIMIT => Err(Stop::Cost(a)),
            Part::Back => {
                self.cost = c;
                Ok(())
            }
        }
    }

    fn take_out(&mut self, layer: usize, a: usize) -> Result<Tag, Stop> {
        if !self.is_lower(a) {
            return Err(Stop::Absent(a));
        }
        self.below.take_out(layer, a)
    }

    fn hand_back(&mut self, layer: usize, tag: Tag) -> Result<(), (Stop, Tag)> {
        let a = tag.arc();
        if !self.is_lower(a) {
            return Err((Stop::NotOut(a), tag));
        }
        self.below.hand_back(layer, tag)
    }
}
