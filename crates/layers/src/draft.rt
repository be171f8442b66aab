// Draft: a closing in the making. It takes entries and is no network; the closing it becomes takes none.

ghost use Rattle.std.specs.Prelude.{◌≡◌, []};
ghost use Rattle.networks.specs.Answers.{refusal};
ghost use Rattle.layers.specs.declared.entry.Side.TheVariants.{Supply, Demand};
ghost use Rattle.layers.specs.Closings.{entry_stop, added, Keeps};

use crate::Closing;
use crate::entry::{Entry, Side};
use arrayvec::ArrayVec;
use networks::{Bounds, MOST_ARCS, Network, Stop};

// Nobody sees its closing before `close` gives it away, and then the draft is gone.
#[derive(Drop)]
pub struct Draft<N, C> {
    closing: Closing<N, C>,
}

impl<N: Network> Draft<N, N::Cost> {
    // A draft with no entries, and with these bounds and cost for the return arc.
    pub fn new(below: N, bounds: Bounds, cost: N::Cost) -> Draft<N, N::Cost>
        ensures { Keeps result.closing below [] bounds cost }
    {
        Draft {
            closing: Closing {
                below,
                entries: ArrayVec::new(),
                bounds,
                cost,
            },
        }
    }

    // Adds a supply at a node below: an arc from the source to it.
    pub fn supply(&mut self, node: usize, bounds: Bounds) -> Result<(), Stop>
        ensures answers { refusal result ≡ entry_stop (N.Network.meaning self.old.closing.below) self.old.closing.entries.items node }
        ensures leaves { Keeps self.new.closing self.old.closing.below (added (N.Network.meaning self.old.closing.below) self.old.closing.entries.items (record { node = node; bounds = bounds; side = Supply })) self.old.closing.bounds self.old.closing.cost }
    {
        self.add(Entry {
            node,
            bounds,
            side: Side::Supply,
        })
    }

    // Adds a demand at a node below: an arc from it to the sink.
    pub fn demand(&mut self, node: usize, bounds: Bounds) -> Result<(), Stop>
        ensures answers { refusal result ≡ entry_stop (N.Network.meaning self.old.closing.below) self.old.closing.entries.items node }
        ensures leaves { Keeps self.new.closing self.old.closing.below (added (N.Network.meaning self.old.closing.below) self.old.closing.entries.items (record { node = node; bounds = bounds; side = Demand })) self.old.closing.bounds self.old.closing.cost }
    {
        self.add(Entry {
            node,
            bounds,
            side: Side::Demand,
        })
    }

    // The closing, whose entries are now all there are.
    pub fn close(self) -> Closing<N, N::Cost>
        ensures { result ≡ self.closing }
    {
        self.closing
    }

    fn add(&mut self, e: Entry) -> Result<(), Stop>
        ensures answers { refusal result ≡ entry_stop (N.Network.meaning self.old.closing.below) self.old.closing.entries.items e.node }
        ensures leaves { Keeps self.new.closing self.old.closing.below (added (N.Network.meaning self.old.closing.below) self.old.closing.entries.items e) self.old.closing.bounds self.old.closing.cost }
    {
        let closing = &mut self.closing;
        if !(1..=closing.below.nodes()).contains(&e.node) {
            return Err(Stop::Absent(e.node));
        }
        if closing.entries.is_full() {
            return Err(Stop::Full);
        }
        if closing.below.arcs() > MOST_ARCS - 2 - closing.entries.len() {
            return Err(Stop::Counts);
        }
        closing.entries.push(e);
        Ok(())
    }
}
