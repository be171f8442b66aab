//! Random rows, flows, prices and calls.

use crate::dice::Dice;
use costs::CostKind;
use files::FileCost;
use hours::HourRow;
use makes::Row;
use networks::Bounds;
use runs::Call;
use std::alloc::{AllocError, Global};

/// The largest flow and bound.
const LIMIT: i32 = Bounds::LIMIT;

/// How far numbers go: near zero, or to the limits.
#[derive(Clone, Copy)]
pub enum Reach {
    Near,
    Far,
}

impl Reach {
    pub fn any(dice: &mut Dice) -> Reach {
        if dice.once_in(5) {
            Reach::Far
        } else {
            Reach::Near
        }
    }

    fn most(self, near: i32) -> i32 {
        match self {
            Reach::Near => near,
            Reach::Far => LIMIT,
        }
    }
}

/// A cost: near zero, up to the limit, or one of the limits.
pub fn cost<C: FileCost>(dice: &mut Dice, reach: Reach) -> C {
    let most = reach.most(9);
    let first = dice.around(most);
    let second = dice.around(most);
    C::of_tiers(i64::from(first), i64::from(second))
}

/// A pair of bounds in order; most are around zero, so that many networks have a plan.
pub fn bounds(dice: &mut Dice, reach: Reach) -> (i32, i32) {
    let most = reach.most(20);
    if dice.once_in(8) {
        let low = dice.around(most);
        return (low, dice.between(low, most));
    }
    let low = if dice.once_in(2) {
        0
    } else {
        0i32.saturating_sub(dice.between(0, most))
    };
    (low, dice.between(0, most))
}

/// A flow, within its bounds or not.
pub fn flow(
    heap: Global,
    dice: &mut Dice,
    arcs: usize,
    reach: Reach,
) -> Result<Vec<i32>, AllocError> {
    let most = reach.most(30);
    let zero = dice.once_in(3);
    let mut flow = vec![in heap; 0i32; arcs]?;
    for carried in flow.iter_mut() {
        *carried = if zero { 0 } else { dice.around(most) };
    }
    Ok(flow)
}

/// Prices: zero, near zero, or any at all.
pub fn prices<C: FileCost>(
    heap: Global,
    dice: &mut Dice,
    nodes: usize,
) -> Result<Vec<C>, AllocError> {
    let wild = dice.once_in(3);
    let most = dice.between(0, 40);
    let mut prices = vec![in heap; C::zero(); nodes]?;
    for price in prices.iter_mut() {
        *price = if wild {
            C::of_tiers(dice.wild(), dice.wild())
        } else {
            C::of_tiers(i64::from(dice.around(most)), 0)
        };
    }
    Ok(prices)
}

/// The rows of a table; some arcs are loops, and some run beside each other.
pub fn rows<C: FileCost>(
    heap: Global,
    dice: &mut Dice,
    nodes: usize,
    arcs: usize,
    reach: Reach,
) -> Result<Vec<Row<C>>, AllocError> {
    let mut rows = vec![in heap; Row::new(1, 1, 0, 0, C::zero()); arcs]?;
    for row in rows.iter_mut() {
        let from = dice.one_to(nodes);
        let to = dice.one_to(nodes);
        let (lo, hi) = bounds(dice, reach);
        *row = Row::new(from, to, lo, hi, cost(dice, reach));
    }
    Ok(rows)
}

/// The rows of an hour chain of so many hours, where the lamp mostly can burn.
pub fn hour_rows<C: FileCost>(
    heap: Global,
    dice: &mut Dice,
    hours: usize,
) -> Result<Vec<HourRow<C>>, AllocError> {
    let empty = HourRow {
        lo: 0,
        hi: 0,
        cost: C::zero(),
    };
    let mut rows = vec![in heap; empty; hours.saturating_mul(5)]?;
    for (i, row) in rows.iter_mut().enumerate() {
        let (lo, hi) = match i % 5 {
            0 => (0, dice.between(0, 8)),
            1 => (0, dice.between(0, 6)),
            2 => (0, dice.between(0, 9)),
            3 => {
                let lamp = dice.between(0, 5);
                (lamp, lamp)
            }
            _ => (dice.between(0, 2), dice.between(2, 12)),
        };
        *row = HourRow {
            lo,
            hi,
            cost: cost(dice, Reach::Near),
        };
    }
    Ok(rows)
}

/// A call on a plan over so many arcs and lock-outs; some of them have to be refused.
pub fn call<C: FileCost>(dice: &mut Dice, arcs: usize, layers: usize) -> Call<C> {
    let arc = dice.up_to(arcs.saturating_add(1));
    let layer = dice.up_to(layers.saturating_add(1));
    match dice.up_to(6) {
        0 | 1 => {
            let (lo, hi) = bounds(dice, Reach::Near);
            Call::Rebound {
                arc,
                bounds: Bounds::new(lo, hi).unwrap_or_default(),
            }
        }
        2 => Call::Recost {
            arc,
            cost: cost(dice, Reach::Near),
        },
        3 | 4 => Call::TakeOut { layer, arc },
        5 => Call::HandBack { layer, arc },
        _ => Call::TakeUp { from: 0, len: arcs },
    }
}
