//! A network opened and settled to its end, over pauses where the budget is small, and compared.

use crate::dice::Dice;
use crate::draws::{Reach, flow, prices};
use crate::printing::print_network;
use crate::tally::Tally;
use crate::verdicts::{Plan, agrees};
use files::FileCost;
use networks::{Bounds, Network};
use plans::{open, settle};
use search::Answer;
use std::alloc::{AllocError, Global};
use std::test::Fail;

/// The most pauses of one trial.
const PAUSES: usize = 100_000;

/// A plan over the network with random tables.
pub fn drawn_plan<N: Network>(
    heap: Global,
    dice: &mut Dice,
    net: &N,
    reach: Reach,
) -> Result<Plan<N::Cost>, AllocError>
where
    N::Cost: FileCost,
{
    Ok(Plan {
        flow: flow(heap, dice, net.arcs(), reach)?,
        needs: vec![in heap; 7i32; net.nodes()]?,
        prices: prices(heap, dice, net.nodes())?,
        marks: vec![in heap; 9u8; net.nodes()]?,
    })
}

// The full budget of so many arcs, or a small one.
fn budget(dice: &mut Dice, arcs: usize) -> u32 {
    if dice.once_in(3) {
        return u32::try_from(dice.up_to(4)).unwrap_or(0);
    }
    let full = 2 * Bounds::LIMIT as usize;
    u32::try_from(full.saturating_mul(arcs)).unwrap_or(u32::MAX)
}

// Settles until the answer is not a pause; none where a call is refused, or there is no end.
fn settle_through<N: Network>(
    dice: &mut Dice,
    net: &N,
    plan: &mut Plan<N::Cost>,
    tally: &mut Tally,
) -> Option<Answer<N::Cost>> {
    for _ in 0..PAUSES {
        let laps = budget(dice, net.arcs());
        let answer = settle(
            net,
            &mut plan.flow,
            &plan.needs,
            &mut plan.prices,
            &mut plan.marks,
            laps,
        );
        match answer.ok()? {
            Answer::Paused { .. } => tally.paused = tally.paused.saturating_add(1),
            ended => return Some(ended),
        }
    }
    None
}

/// One trial of a network; where the two methods differ, the network is printed.
pub fn try_network<N: Network>(
    rt: &HostRuntime,
    dice: &mut Dice,
    net: &N,
    reach: Reach,
    tally: &mut Tally,
) -> Result<(), Fail>
where
    N::Cost: FileCost,
{
    let heap = rt.alloc();
    let mut plan = drawn_plan(heap, dice, net, reach)?;
    let found = plan.flow.clone()?;
    open(net, &plan.flow, &mut plan.needs, &plan.prices, &plan.marks)?;
    let Some(answer) = settle_through(dice, net, &mut plan, tally) else {
        print_network(rt, net)?;
        return Err(Fail::new("a settle did not end"));
    };
    let agreed = agrees(heap, net, &found, &plan, answer)?;
    tally.note(&answer, agreed);
    if !agreed {
        print_network(rt, net)?;
    }
    Ok(())
}
