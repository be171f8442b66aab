// Rises of prices: how far the prices of the nodes that are not labelled go up next, and what for.

ghost use Rattle.std.specs.Prelude.{◌≡◌, ℕ, ◌<◌, ◌≤◌, length};
ghost use Rattle.costs.specs.Kinds.{size_limit};
ghost use Rattle.networks.specs.Limits.{most_nodes};
ghost use Rattle.networks.specs.Nets.{shown};
ghost use Rattle.flows.specs.searching.Fits.{Bounded, price_limit, change_limit};
ghost use Rattle.flows.specs.searching.Prices.{Raised};
ghost use Rattle.reach.specs.Scans.{is_labelled};
ghost use Rattle.reach.specs.Rises.{own_limit_at, next_of, NextIs};

use crate::scans::Best;
use costs::CostKind;
use flows::{Seen, opposite};
use labels::{Aim, Labels};
use networks::Network;

// What the next rise is for: to label over an arc, or to bring the chosen arc into kilter.
#[derive(Clone, Copy)]
pub enum Rise<C> {
    Label(Best<C>),
    Kilter(C),
}

// Raises the prices of the nodes that are not labelled.
pub fn raise<C: CostKind>(prices: &mut [C], labels: &Labels, by: C)
    requires few { length prices.old ≤ most_nodes }
    requires moderate { Bounded C.CostKind.kind price_limit prices.old }
    requires small { C.CostKind.kind.size by ≤ change_limit }
    ensures raised { Raised C.CostKind.kind (length prices.old) by (is_labelled labels.now) prices.old prices.new }
    ensures long { length prices.new ≡ length prices.old }
{
    flows::raise(prices, by, |i| labels.place(i + 1).is_some());
}

// By how much prices may rise before the chosen arc is in kilter: no limit while it is outside its bounds.
fn own_limit<C: CostKind>(seen: Seen<C>, along: bool) -> Option<C>
    requires { C.CostKind.kind.size seen.cost ≤ size_limit }
    ensures { result ≡ own_limit_at C.CostKind.kind seen.cost seen.arc along seen.flow }
{
    let Seen { arc, cost, flow } = seen;
    let fits = (arc.lo..=arc.hi).contains(&flow);
    fits.then(|| if along { opposite(cost) } else { cost })
}

// The lesser of the chosen arc's own limit and the least slack; none where nothing limits the prices.
fn lesser<C: CostKind>(own: Option<C>, best: Option<Best<C>>) -> Option<Rise<C>>
    ensures { result ≡ next_of C.CostKind.kind own best }
{
    let Some(b) = best else {
        return own.map(Rise::Kilter);
    };
    match own {
        Some(c) if c.at_most(b.slack) => Some(Rise::Kilter(c)),
        _ => Some(Rise::Label(b)),
    }
}

// How far prices rise next, with the least slack at hand.
pub fn next_rise<N: Network>(aim: &Aim<N>, best: Option<Best<N::Cost>>) -> Option<Rise<N::Cost>>
    requires { aim.now.chosen.arc < length aim.now.view.flow.now }
    ensures { NextIs N.Cost.CostKind.kind (shown (N.meaning aim.now.view.net.now)) aim.now.view.flow.now aim.now.view.prices.now aim.now.chosen best result }
{
    let i = aim.chosen.arc;
    let seen = aim.view.see(i, aim.view.arc(i));
    lesser(own_limit(seen, aim.chosen.along), best)
}
