//! The program `trials`: worked networks settled one after another, a line each; then random networks and
//! plans, each answered by two methods that share nothing, with a line for each group. Where two answers
//! differ, the network is printed as a file, and the status is 1. An argument multiplies the trials.
#![tactic(auto)]

mod dice;
mod draws;
mod groups;
mod lists;
mod printing;
mod settling;
mod tables;
mod tally;
mod texts;
mod verdicts;
mod worked;

use costs::{Plain, TwoTier};
use dice::Dice;
use std::env;
use std::test::Fail;
use tally::Tally;
use texts::Copies;
use worked::{one_node, ring, triangle, two_nodes, two_tier};

/// Where the random numbers begin.
const SEED: u64 = 248;

fn fixed(rt: &HostRuntime) -> Result<(), Fail> {
    triangle(rt)?;
    one_node(rt)?;
    two_nodes(rt)?;
    two_tier(rt)?;
    ring(rt)?;
    Ok(())
}

// Prints a group, and adds it to all.
fn told(rt: &HostRuntime, all: &mut Tally, name: &str, tally: Tally) -> Result<(), Fail> {
    tally.print(rt, name)?;
    all.add(tally);
    Ok(())
}

// Tables written, read back and damaged.
fn copied(rt: &HostRuntime, dice: &mut Dice, many: usize, all: &mut Tally) -> Result<(), Fail> {
    let mut copies = Copies::default();
    texts::try_texts::<Plain>(rt, dice, many.saturating_mul(300), &mut copies)?;
    texts::try_texts::<TwoTier>(rt, dice, many.saturating_mul(200), &mut copies)?;
    let Copies {
        tried,
        agreed,
        refused,
    } = copies;
    println!(rt; "texts: tried {tried}, agreed {agreed}, damaged and refused {refused}")?;
    all.tried = all.tried.saturating_add(tried);
    all.agreed = all.agreed.saturating_add(agreed);
    Ok(())
}

fn random(rt: &HostRuntime, many: usize) -> Result<Tally, Fail> {
    let mut dice = Dice::new(SEED);
    let mut all = Tally::default();
    let tally = groups::tables::<Plain>(rt, &mut dice, many.saturating_mul(1200))?;
    told(rt, &mut all, "tables", tally)?;
    let tally = groups::tables::<TwoTier>(rt, &mut dice, many.saturating_mul(600))?;
    told(rt, &mut all, "tables of two tiers", tally)?;
    let tally = groups::chains::<Plain>(rt, &mut dice, many.saturating_mul(200))?;
    told(rt, &mut all, "hour chains", tally)?;
    let tally = groups::chains::<TwoTier>(rt, &mut dice, many.saturating_mul(100))?;
    told(rt, &mut all, "hour chains of two tiers", tally)?;
    let tally = groups::closings::<Plain>(rt, &mut dice, many.saturating_mul(400))?;
    told(rt, &mut all, "closings", tally)?;
    let tally = groups::closings::<TwoTier>(rt, &mut dice, many.saturating_mul(200))?;
    told(rt, &mut all, "closings of two tiers", tally)?;
    let tally = groups::lockouts::<Plain>(rt, &mut dice, many.saturating_mul(300))?;
    told(rt, &mut all, "lock-outs", tally)?;
    let tally = groups::lockouts::<TwoTier>(rt, &mut dice, many.saturating_mul(150))?;
    told(rt, &mut all, "lock-outs of two tiers", tally)?;
    let tally = lists::plans::<Plain>(rt, &mut dice, many.saturating_mul(800))?;
    told(rt, &mut all, "plans", tally)?;
    let tally = lists::plans::<TwoTier>(rt, &mut dice, many.saturating_mul(400))?;
    told(rt, &mut all, "plans of two tiers", tally)?;
    copied(rt, &mut dice, many, &mut all)?;
    Ok(all)
}

// How many times as many trials are asked for.
fn asked(rt: &HostRuntime) -> Result<usize, Fail> {
    match env::args(rt)?.nth(1) {
        Some(times) => Ok(times.parse()?),
        None => Ok(1),
    }
}

fn main(rt: HostRuntime) -> Result<(), Fail> {
    fixed(&rt)?;
    let all = random(&rt, asked(&rt)?)?;
    println!(rt; "(agreed {})", all.agreed)?;
    if all.agreed < all.tried {
        return Err(Fail::new("two answers differ"));
    }
    Ok(())
}
