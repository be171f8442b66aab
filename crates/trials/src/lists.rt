//! Plans: lists of random calls made by `run`, and what is known of the network kept beside it by hand.

use crate::dice::Dice;
use crate::draws::{Reach, call, hour_rows, rows};
use crate::groups::{TAGS, closed, hand_all, is_emptied};
use crate::printing::print_network;
use crate::settling::drawn_plan;
use crate::tally::Tally;
use crate::verdicts::{Plan, agrees, weight_of};
use cancelling::Weight;
use files::FileCost;
use hours::new_chain;
use makes::ArcTable;
use networks::{Lockout, Network, Stop, TagRing};
use plans::run;
use runs::{Call, Outcome};
use search::Answer;
use std::alloc::{AllocError, Global};
use std::test::Fail;

/// What an arc of a plan is known to be: its bounds and cost last granted, and where it is out.
#[derive(Clone, Copy)]
struct Known {
    lo: i32,
    hi: i32,
    cost: Weight,
    fixed: bool,
    out: [bool; 2],
}

/// The arcs of a plan, kept beside it, and over how many of them each of two lock-outs stands.
#[derive(Drop)]
struct Ledger {
    arcs: Vec<Known>,
    over: [usize; 2],
}

impl Ledger {
    fn new<N: Network>(heap: Global, net: &N, over: [usize; 2]) -> Result<Ledger, AllocError>
    where
        N::Cost: FileCost,
    {
        let mut arcs = Vec::new(heap);
        for a in 1..=net.arcs() {
            if let Some(arc) = net.arc(a) {
                arcs.push(Known {
                    lo: arc.lo,
                    hi: arc.hi,
                    cost: weight_of(arc.cost),
                    fixed: arc.fixed,
                    out: [false; 2],
                })?;
            }
        }
        Ok(Ledger { arcs, over })
    }

    fn known(&self, a: usize) -> Option<Known> {
        self.arcs.get(a.checked_sub(1)?).copied()
    }

    // What is known of an arc that a lock-out stands over.
    fn lockable(&self, layer: usize, a: usize) -> Option<Known> {
        let over = *self.over.get(layer.checked_sub(1)?)?;
        if a <= over { self.known(a) } else { None }
    }

    // How many arcs are out at a lock-out.
    fn count(&self, layer: usize) -> usize {
        let mut count = 0usize;
        for known in &self.arcs {
            if is_out(known, layer) {
                count = count.saturating_add(1);
            }
        }
        count
    }

    // The stop that a call has to meet, by what is known; a settle and a take-up are not foretold.
    fn stop<C: FileCost>(&self, call: Call<C>) -> Option<Stop> {
        match call {
            Call::Rebound { arc, .. } => match self.known(arc) {
                None => Some(Stop::Absent(arc)),
                Some(known) => (known.out[0] || known.out[1]).then_some(Stop::Held(arc)),
            },
            Call::Recost { arc, .. } => match self.known(arc) {
                None => Some(Stop::Absent(arc)),
                Some(known) => known.fixed.then_some(Stop::Fixed(arc)),
            },
            Call::TakeOut { layer, arc } => match self.lockable(layer, arc) {
                Some(known) if is_out(&known, layer) => Some(Stop::Held(arc)),
                Some(_) => (self.count(layer) >= 16).then_some(Stop::Full),
                None => Some(Stop::Absent(arc)),
            },
            Call::HandBack { layer, arc } => match self.lockable(layer, arc) {
                Some(known) if is_out(&known, layer) => None,
                _ => Some(Stop::NotOut(arc)),
            },
            Call::Settle { .. } | Call::TakeUp { .. } => None,
        }
    }

    // Takes over what a granted call changes.
    fn grant<C: FileCost>(&mut self, call: Call<C>) {
        let (Call::Rebound { arc, .. }
        | Call::Recost { arc, .. }
        | Call::TakeOut { arc, .. }
        | Call::HandBack { arc, .. }) = call
        else {
            return;
        };
        let Some(known) = arc.checked_sub(1).and_then(|i| self.arcs.get_mut(i)) else {
            return;
        };
        match call {
            Call::Rebound { bounds, .. } => {
                known.lo = bounds.lo();
                known.hi = bounds.hi();
            }
            Call::Recost { cost, .. } => known.cost = weight_of(cost),
            Call::TakeOut { layer, .. } => set_out(known, layer, true),
            Call::HandBack { layer, .. } => set_out(known, layer, false),
            Call::Settle { .. } | Call::TakeUp { .. } => {}
        }
    }

    // The network shows what is known.
    fn is_shown<N: Network>(&self, net: &N) -> bool
    where
        N::Cost: FileCost,
    {
        for (i, known) in self.arcs.iter().enumerate() {
            let Some(arc) = net.arc(i.saturating_add(1)) else {
                return false;
            };
            let out = known.out[0] || known.out[1];
            let (lo, hi) = if out { (0, 0) } else { (known.lo, known.hi) };
            if arc.lo != lo || arc.hi != hi || weight_of(arc.cost) != known.cost {
                return false;
            }
        }
        true
    }
}

fn is_out(known: &Known, layer: usize) -> bool {
    (layer == 1 && known.out[0]) || (layer == 2 && known.out[1])
}

fn set_out(known: &mut Known, layer: usize, out: bool) {
    match layer {
        1 => known.out[0] = out,
        2 => known.out[1] = out,
        _ => {}
    }
}

// Some random calls and a settle.
fn piece<C: FileCost>(
    heap: Global,
    dice: &mut Dice,
    arcs: usize,
) -> Result<Vec<Call<C>>, AllocError> {
    let mut calls = Vec::new(heap);
    for _ in 0..dice.up_to(4) {
        calls.push(call(dice, arcs, 2))?;
    }
    let budget = if dice.once_in(2) { 3 } else { 1_000_000_000 };
    calls.push(Call::Settle { budget })?;
    Ok(calls)
}

// The outcome of a call is the one that was foretold; a granted one is taken over.
fn is_foretold<C: FileCost>(ledger: &mut Ledger, call: Call<C>, outcome: Outcome<C>) -> bool {
    match (ledger.stop(call), outcome) {
        (Some(stop), Outcome::Refused(told)) => stop == told,
        (None, Outcome::Done) => {
            ledger.grant(call);
            true
        }
        (None, Outcome::Settled(_)) => matches!(call, Call::Settle { .. }),
        (None, Outcome::Refused(_)) => matches!(call, Call::TakeUp { .. }),
        (Some(_), _) => false,
    }
}

// A plan with its ring of tags, and what is known of it.
#[derive(Drop)]
struct Tried<C> {
    plan: Plan<C>,
    ledger: Ledger,
}

// Makes a list of calls that ends with a settle, and gives its answer; none where an outcome is not the one
// that was foretold, or a call was not made.
fn make<N: Network>(
    heap: Global,
    net: &mut N,
    tried: &mut Tried<N::Cost>,
    tags: &mut TagRing<TAGS>,
    calls: &[Call<N::Cost>],
) -> Result<Option<Answer<N::Cost>>, Fail>
where
    N::Cost: FileCost,
{
    let plan = &mut tried.plan;
    let offers = plan.flow.clone()?;
    let mut outcomes = vec![in heap; Outcome::Refused(Stop::Counts); calls.len()]?;
    let made = run(
        net,
        &mut plan.flow,
        &mut plan.needs,
        &mut plan.prices,
        &mut plan.marks,
        tags,
        &offers,
        calls,
        &mut outcomes,
    )?;
    if made != calls.len() {
        return Ok(None);
    }
    let mut last = None;
    for (call, outcome) in calls.iter().zip(&outcomes) {
        if !is_foretold(&mut tried.ledger, *call, *outcome) {
            return Ok(None);
        }
        if let Outcome::Settled(answer) = outcome {
            last = Some(*answer);
        }
    }
    Ok(last)
}

// Settles on while the answer is a pause.
fn go_on<N: Network>(
    heap: Global,
    net: &mut N,
    tried: &mut Tried<N::Cost>,
    tags: &mut TagRing<TAGS>,
    tally: &mut Tally,
) -> Result<Option<Answer<N::Cost>>, Fail>
where
    N::Cost: FileCost,
{
    let mut calls = Vec::new(heap);
    calls.push(Call::Settle { budget: 5 })?;
    for _ in 0..100_000 {
        match make(heap, net, tried, tags, &calls)? {
            Some(Answer::Paused { .. }) => tally.paused = tally.paused.saturating_add(1),
            ended => return Ok(ended),
        }
    }
    Ok(None)
}

// One list of calls with a settle at its end, compared.
fn try_piece<N: Network>(
    heap: Global,
    dice: &mut Dice,
    net: &mut N,
    tried: &mut Tried<N::Cost>,
    tags: &mut TagRing<TAGS>,
    tally: &mut Tally,
) -> Result<bool, Fail>
where
    N::Cost: FileCost,
{
    let calls = piece(heap, dice, net.arcs())?;
    let found = tried.plan.flow.clone()?;
    let mut answer = make(heap, net, tried, tags, &calls)?;
    if let Some(Answer::Paused { .. }) = answer {
        tally.paused = tally.paused.saturating_add(1);
        answer = go_on(heap, net, tried, tags, tally)?;
    }
    let Some(answer) = answer else {
        return Ok(false);
    };
    match answer {
        Answer::None => tally.none = tally.none.saturating_add(1),
        _ => tally.least = tally.least.saturating_add(1),
    }
    Ok(tried.ledger.is_shown(net) && agrees(heap, net, &found, &tried.plan, answer)?)
}

// Up to six lists of calls; ends at the first that does not agree.
fn try_pieces<N: Network>(
    heap: Global,
    dice: &mut Dice,
    net: &mut N,
    tried: &mut Tried<N::Cost>,
    tags: &mut TagRing<TAGS>,
    tally: &mut Tally,
) -> Result<bool, Fail>
where
    N::Cost: FileCost,
{
    for _ in 0..=dice.up_to(5) {
        if !try_piece(heap, dice, net, tried, tags, tally)? {
            return Ok(false);
        }
    }
    Ok(true)
}

// A plan over the network.
fn try_plan<N: Network>(
    rt: &HostRuntime,
    dice: &mut Dice,
    net: &mut N,
    over: [usize; 2],
    tally: &mut Tally,
) -> Result<(), Fail>
where
    N::Cost: FileCost,
{
    let heap = rt.alloc();
    let mut tried = Tried {
        plan: drawn_plan(heap, dice, net, Reach::Near)?,
        ledger: Ledger::new(heap, net, over)?,
    };
    let mut tags = TagRing::new();
    let right = try_pieces(heap, dice, net, &mut tried, &mut tags, tally);
    hand_all(net, &mut tags);
    let emptied = is_emptied(tags);
    let agreed = right? && emptied;
    tally.tried = tally.tried.saturating_add(1);
    tally.agreed = tally.agreed.saturating_add(u64::from(agreed));
    if !agreed {
        print_network(rt, net)?;
    }
    Ok(())
}

/// So many plans over tables, hour chains and closings, each under two lock-outs.
pub fn plans<C: FileCost>(rt: &HostRuntime, dice: &mut Dice, count: usize) -> Result<Tally, Fail> {
    let mut tally = Tally::default();
    for _ in 0..count {
        match dice.up_to(3) {
            0 => over_chain::<C>(rt, dice, &mut tally)?,
            1 => over_closing::<C>(rt, dice, &mut tally)?,
            _ => over_table::<C>(rt, dice, &mut tally)?,
        }
    }
    Ok(tally)
}

fn over_table<C: FileCost>(
    rt: &HostRuntime,
    dice: &mut Dice,
    tally: &mut Tally,
) -> Result<(), Fail> {
    let nodes = dice.one_to(8);
    let arcs = dice.up_to(24);
    let mut rows = rows::<C>(rt.alloc(), dice, nodes, arcs, Reach::Near)?;
    let mut net = Lockout::new(Lockout::new(ArcTable::new(nodes, arcs, &mut rows)));
    try_plan(rt, dice, &mut net, [arcs; 2], tally)
}

fn over_chain<C: FileCost>(
    rt: &HostRuntime,
    dice: &mut Dice,
    tally: &mut Tally,
) -> Result<(), Fail> {
    let hours = dice.one_to(6);
    let mut rows = hour_rows::<C>(rt.alloc(), dice, hours)?;
    let mut net = Lockout::new(Lockout::new(new_chain(hours, &mut rows)));
    let arcs = net.arcs();
    try_plan(rt, dice, &mut net, [arcs; 2], tally)
}

// A lock-out below the closing stands over the arcs of the table alone.
fn over_closing<C: FileCost>(
    rt: &HostRuntime,
    dice: &mut Dice,
    tally: &mut Tally,
) -> Result<(), Fail> {
    let nodes = dice.one_to(8);
    let arcs = dice.up_to(24);
    let mut rows = rows::<C>(rt.alloc(), dice, nodes, arcs, Reach::Near)?;
    let below = Lockout::new(ArcTable::new(nodes, arcs, &mut rows));
    let mut net = Lockout::new(closed(dice, below, Reach::Near)?);
    let all = net.arcs();
    try_plan(rt, dice, &mut net, [arcs, all], tally)
}
