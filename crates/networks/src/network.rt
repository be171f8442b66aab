// What every network owes: one meaning, and answers that are read off it.

ghost use Rattle.std.specs.Prelude.{◌≡◌, ℕ, false, min, List, ◌∷◌, length};
ghost use Rattle.networks.specs.Limits.{most_counted};
ghost use Rattle.networks.specs.Nets.{Net, arc_at, rebound_stop, rebounded, recost_stop, recosted, take_out_stop, taken, hand_back_stop, handed_back};
ghost use Rattle.networks.specs.Answers.{answer, said, refusal, tagged, returned, answer_back};

use crate::{Bounds, Stop, Tag};
use costs::CostKind;

// An arc as a network shows it. Its bounds are plain numbers and may be unfit. Held: it cannot be
// rebound. Fixed: its cost cannot be replaced.
#[derive(Clone, Copy, Debug, PartialEq, Eq)]
pub struct Arc<C> {
    pub from: usize,
    pub to: usize,
    pub lo: i32,
    pub hi: i32,
    pub cost: C,
    pub held: bool,
    pub fixed: bool,
}

impl<C> Arc<C> {
    // An arc that is neither held nor fixed.
    pub fn free(from: usize, to: usize, lo: i32, hi: i32, cost: C) -> Arc<C>
        ensures { result ≡ record { from = from; to = to; lo = lo; hi = hi; cost = cost; held = false; fixed = false } }
    {
        Arc {
            from,
            to,
            lo,
            hi,
            cost,
            held: false,
            fixed: false,
        }
    }
}

pub trait Network {
    type Cost: CostKind;

    ghost meaning: { Self → Net Self.Cost };

    // The references that it is kept in, by their ghost names: what is lent to it holds in the end what it means then.
    ghost references: { Self → List ℕ };

    // How many nodes there are.
    fn nodes(&self) -> usize
        ensures { result ≡ (meaning self.now).nodes };

    // How many arcs there are.
    fn arcs(&self) -> usize
        ensures { result ≡ length (meaning self.now).arcs };

    // How many lock-outs there are, as far as the number goes; they are numbered from the lowest, 1 upward.
    fn lockouts(&self) -> usize
        ensures { result ≡ min (length (meaning self.now).locks) most_counted };

    // An arc as it shows; 0 and numbers above A are absent.
    fn arc(&self, a: usize) -> Option<Arc<Self::Cost>>
        ensures { result ≡ arc_at (meaning self.now) a };

    // Replaces the bounds of one arc, beneath lock-outs too.
    fn rebound(&mut self, a: usize, b: Bounds) -> Result<(), Stop>
        ensures answers { refusal result ≡ rebound_stop (meaning self.old) a }
        ensures leaves { meaning self.new ≡ rebounded (meaning self.old) a b.lo b.hi }
        ensures same_references { references self.new ≡ references self.old };

    // Replaces the cost of one arc.
    fn recost(&mut self, a: usize, c: Self::Cost) -> Result<(), Stop>
        ensures answers { refusal result ≡ recost_stop Self.Cost.CostKind.kind.size (meaning self.old) a c }
        ensures leaves { meaning self.new ≡ recosted Self.Cost.CostKind.kind.size (meaning self.old) a c }
        ensures same_references { references self.new ≡ references self.old };

    // Takes an arc out at one lock-out.
    fn take_out(&mut self, layer: usize, a: usize) -> Result<Tag, Stop>
        ensures answers { said (tagged result) ≡ answer (take_out_stop (meaning self.old) layer a) a }
        ensures leaves { meaning self.new ≡ taken (meaning self.old) layer a }
        ensures same_references { references self.new ≡ references self.old };

    // Puts an arc back at one lock-out, or gives the tag back.
    fn hand_back(&mut self, layer: usize, tag: Tag) -> Result<(), (Stop, Tag)>
        ensures answers { returned result ≡ answer_back (hand_back_stop (meaning self.old) layer tag.arc) tag }
        ensures leaves { meaning self.new ≡ handed_back (meaning self.old) layer tag.arc }
        ensures same_references { references self.new ≡ references self.old };
}

// A network that is lent: a layer can stand over it, and leaves it to its owner.
impl<N: Network> Network for &mut N {
    type Cost = N::Cost;

    ghost meaning = { λ s. N.meaning s.now };

    ghost references = { λ s. s.ghost_name ∷ N.references s.now };

    fn nodes(&self) -> usize {
        (**self).nodes()
    }

    fn arcs(&self) -> usize {
        (**self).arcs()
    }

    fn lockouts(&self) -> usize {
        (**self).lockouts()
    }

    fn arc(&self, a: usize) -> Option<Arc<N::Cost>> {
        (**self).arc(a)
    }

    fn rebound(&mut self, a: usize, b: Bounds) -> Result<(), Stop> {
        (**self).rebound(a, b)
    }

    fn recost(&mut self, a: usize, c: N::Cost) -> Result<(), Stop> {
        (**self).recost(a, c)
    }

    fn take_out(&mut self, layer: usize, a: usize) -> Result<Tag, Stop> {
        (**self).take_out(layer, a)
    }

    fn hand_back(&mut self, layer: usize, tag: Tag) -> Result<(), (Stop, Tag)> {
        (**self).hand_back(layer, tag)
    }
}
