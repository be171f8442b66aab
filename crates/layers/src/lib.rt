// Layers: networks that stand over any other network.
//
// `Closing` adds supplies and demands. Each entry becomes an arc between its node and a super source or
// sink, and a return arc from the sink to the source closes the flow. Its meaning is computed from the
// meaning below, whatever make or layer that is. `Closing::check` says beforehand why it cannot stand over
// a network; made all the same it shows no node, no arc and no lock-out, so that every call on it stops.
//
// A `Draft` takes the entries, and `close` makes it a closing. A draft is no network and a closing takes no
// entries, so that all of them come before any layer or plan is put over it.
//
// Lock-outs below are reached through it under their numbers, over the arcs below only: an entry and the
// return arc can be taken out at a lock-out that is put over the closing.
#![tactic(auto)]

mod closing;
mod draft;
mod entry;

pub use closing::Closing;
pub use draft::Draft;
