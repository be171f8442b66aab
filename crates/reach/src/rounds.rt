// The rounds of reach: label, then change prices so that one node more can be labelled.

ghost use Rattle.std.specs.Prelude.{◌≡◌, ℕ, ◌<◌, ◌≤◌, length};
ghost use Rattle.networks.specs.Limits.{most_nodes};
ghost use Rattle.networks.specs.Nets.{shown};
ghost use Rattle.flows.specs.searching.Fits.{Bounded, price_limit};
ghost use Rattle.labels.specs.Good.{count, place_of};
ghost use Rattle.reach.specs.Scans.{Sighted};
ghost use Rattle.labels.specs.Searches.{Searching};
ghost use Rattle.reach.specs.Rounds.{large, Repriced, EndsWith, Advanced};

use crate::rises::{Rise, next_rise, raise};
use crate::scans::{Best, link, look_round};
use costs::CostKind;
use flows::{Step, View};
use labels::{Aim, Labels, label};
use networks::Network;
use std::ops::ControlFlow;

// Why the sought node is not reached: the chosen arc is in kilter, or nothing limits the prices.
#[derive(Clone, Copy, Debug, PartialEq, Eq)]
pub enum Over {
    Kilter,
    Cut,
}

// Raises prices, where no arc leads across that may move: one node more is labelled, or the search for the sought node is over.
fn change<N: Network>(
    net: &N,
    flow: &[i32],
    prices: &mut [N::Cost],
    chosen: Step,
    best: Option<Best<N::Cost>>,
    labels: &mut Labels,
) -> Result<(), Over>
    requires searching { Searching N.Cost.CostKind.kind (shown (N.meaning net.now)) flow.now prices.old chosen labels.old }
    requires moderate { Bounded N.Cost.CostKind.kind price_limit prices.old }
    requires few { length prices.old ≤ most_nodes }
    requires sought { place_of labels.old chosen.node ≡ 0 }
    requires sighted { Sighted N.Cost.CostKind.kind (shown (N.meaning net.now)) flow.now prices.old chosen.arc labels.old (length (shown (N.meaning net.now))) best }
    ensures { Advanced N.Cost.CostKind.kind (shown (N.meaning net.now)) flow.now prices.old prices.new chosen labels.old labels.new result }
{
    let aim = Aim {
        view: View { net, flow, prices },
        chosen,
    };
    match next_rise(&aim, best).ok_or(Over::Cut)? {
        Rise::Kilter(by) => {
            raise(prices, labels, by);
            Err(Over::Kilter)
        }
        Rise::Label(b) => {
            let arc = aim.view.arc(b.over.arc);
            raise(prices, labels, b.slack);
            link(arc, b.over, labels);
            Ok(())
        }
    }
}

// One node more is labelled, at prices that are raised if need be; or the search for the sought node is over.
fn advance<N: Network>(
    net: &N,
    flow: &[i32],
    prices: &mut [N::Cost],
    chosen: Step,
    labels: &mut Labels,
) -> Result<(), Over>
    requires searching { Searching N.Cost.CostKind.kind (shown (N.meaning net.now)) flow.now prices.old chosen labels.old }
    requires moderate { Bounded N.Cost.CostKind.kind price_limit prices.old }
    requires few { length prices.old ≤ most_nodes }
    requires sought { place_of labels.old chosen.node ≡ 0 }
    ensures { Advanced N.Cost.CostKind.kind (shown (N.meaning net.now)) flow.now prices.old prices.new chosen labels.old labels.new result }
{
    let aim = Aim {
        view: View { net, flow, prices },
        chosen,
    };
    match look_round(&aim, labels) {
        ControlFlow::Break(over) => {
            link(aim.view.arc(over.arc), over, labels);
            Ok(())
        }
        ControlFlow::Continue(best) => change(net, flow, prices, chosen, best, labels),
    }
}

// Labels from the source until the node that the chosen step sets out from is labelled, or the chosen arc is in kilter, or nothing more can be labelled at any prices.
pub fn reach<N: Network>(
    net: &N,
    flow: &[i32],
    prices: &mut [N::Cost],
    chosen: Step,
    labels: &mut Labels,
) -> Result<(), Over>
    requires searching { Searching N.Cost.CostKind.kind (shown (N.meaning net.now)) flow.now prices.old chosen labels.old }
    requires few { length prices.old ≤ most_nodes }
    requires tame { Bounded N.Cost.CostKind.kind large prices.old }
    requires one { count labels.old ≡ 1 }
    ensures prices { Repriced N.Cost.CostKind.kind (shown (N.meaning net.now)) flow.now prices.old prices.new }
    ensures ends { EndsWith N.Cost.CostKind.kind (shown (N.meaning net.now)) flow.now prices.new chosen labels.new result }
{
    let mut start = 0;
    // Each round labels one node more, so that the rounds end.
    'rounds: loop {
        let view = View { net, flow, prices };
        if label(&Aim { view, chosen }, start, labels) {
            return Ok(());
        }
        start = labels.entries.len();
        advance(net, flow, prices, chosen, labels)?;
    }
}
