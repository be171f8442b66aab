// Lock-out: a network with up to 16 of its arcs taken out.

ghost use Rattle.std.specs.Prelude.{◌≡◌, ℕ, suc, ◌≤◌, length, replicate, ◌==◌};
ghost use Rattle.networks.specs.Nets.{line_with, arc_line as arc_line_of, out_at, shut};
ghost use Rattle.networks.specs.Answers.{refusal};
ghost use Rattle.networks.specs.Locks.{locked_stop, locked_net, lockout_net, lock_over};

use crate::{Arc, Bounds, Network, Stop, Tag, check_counts};

// How many arcs a lock-out can have out.
const LINES: usize = 16;

// Each line holds the number of an arc that is out, or 0 where it is free: what a lock-out means is a list
// of such numbers, and there is no arc 0. It is fit where the counts below are; else it shows nothing.
#[derive(Drop)]
pub struct Lockout<N> {
    below: N,
    fit: bool,
    lines: [usize; LINES],
}

// The first line that holds x.
fn line_of(lines: &[usize], x: usize) -> Option<usize>
    ensures { result ≡ line_with x lines.now }
{
    lines.iter().position(|line| *line == x)
}

// The first line that holds arc a; a line that holds 0 is free.
fn arc_line(lines: &[usize], a: usize) -> Option<usize>
    ensures { result ≡ arc_line_of a lines.now }
{
    if a == 0 { None } else { line_of(lines, a) }
}

impl<C> Arc<C> {
    // The arc as it shows where it is out: 0 to 0, and held.
    fn shut_off(self) -> Arc<C>
        ensures { result ≡ shut self }
    {
        Arc {
            lo: 0,
            hi: 0,
            held: true,
            ..self
        }
    }
}

impl<N: Network> Lockout<N> {
    // Why a lock-out cannot stand over this network, if so.
    pub fn check(below: &N) -> Result<(), Stop>
        ensures { refusal result ≡ locked_stop (N.Network.meaning below.now) }
    {
        check_counts(below.nodes(), below.arcs())
    }

    // A lock-out with nothing out; over an unfit network it shows nothing.
    pub fn new(below: N) -> Lockout<N>
        ensures shows { lockout_net N.Network.meaning result
            ≡ locked_net (N.Network.meaning below) (replicate 16 0) }
        ensures over { result.below ≡ below }
    {
        let fit = Self::check(&below).is_ok();
        Lockout {
            below,
            fit,
            lines: [0; LINES],
        }
    }

    // Whether this is the lock-out of that number: the one above all those below.
    fn is_number(&self, layer: usize) -> bool
        ensures { result ≡ (layer == suc (length (N.Network.meaning self.now.below).locks)) }
    {
        layer != 0 && layer - 1 == self.below.lockouts()
    }

    // Whether a line holds an arc of the network below: then it is out here.
    fn holds(&self, a: usize) -> bool
        requires { (1 ≤ a) × (a ≤ length (N.Network.meaning self.now.below).arcs) }
        ensures { result ≡ out_at (lock_over (N.Network.meaning self.now.below).arcs self.now.lines) a }
    {
        line_of(&self.lines, a).is_some()
    }
}

impl<N: Network> Network for Lockout<N> {
    type Cost = N::Cost;

    ghost meaning = { lockout_net N.Network.meaning };

    ghost references = { λ s. N.Network.references s.below };

    fn nodes(&self) -> usize {
        if !self.fit {
            return 0;
        }
        self.below.nodes()
    }

    fn arcs(&self) -> usize {
        if !self.fit {
            return 0;
        }
        self.below.arcs()
    }

    fn lockouts(&self) -> usize {
        if !self.fit {
            return 0;
        }
        self.below.lockouts().saturating_add(1)
    }

    fn arc(&self, a: usize) -> Option<Arc<N::Cost>> {
        if !self.fit {
            return None;
        }
        let x = self.below.arc(a)?;
        Some(if self.holds(a) { x.shut_off() } else { x })
    }

    fn rebound(&mut self, a: usize, b: Bounds) -> Result<(), Stop> {
        if !self.fit {
            return Err(Stop::Absent(a));
        }
        self.below.arc(a).ok_or(Stop::Absent(a))?;
        if self.holds(a) {
            return Err(Stop::Held(a));
        }
        self.below.rebound(a, b)
    }

    fn recost(&mut self, a: usize, c: N::Cost) -> Result<(), Stop> {
        if !self.fit {
            return Err(Stop::Absent(a));
        }
        self.below.recost(a, c)
    }

    fn take_out(&mut self, layer: usize, a: usize) -> Result<Tag, Stop> {
        if !self.fit {
            return Err(Stop::Absent(a));
        }
        if !self.is_number(layer) {
            return self.below.take_out(layer, a);
        }
        self.below.arc(a).ok_or(Stop::Absent(a))?;
        if self.holds(a) {
            return Err(Stop::Held(a));
        }
        let free = line_of(&self.lines, 0).ok_or(Stop::Full)?;
        self.lines[free] = a;
        Ok(Tag::new(a))
    }

    fn hand_back(&mut self, layer: usize, tag: Tag) -> Result<(), (Stop, Tag)> {
        if !self.fit {
            return Err((Stop::NotOut(tag.arc()), tag));
        }
        if !self.is_number(layer) {
            return self.below.hand_back(layer, tag);
        }
        let a = tag.arc();
        match arc_line(&self.lines, a) {
            Some(line) if a <= self.below.arcs() => {
                self.lines[line] = 0;
                tag.spend();
                Ok(())
            }
            _ => Err((Stop::NotOut(a), tag)),
        }
    }
}
