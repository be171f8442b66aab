// Settle: the search for a least-cost flow from the flow found, with its answer.

ghost use Rattle.std.specs.Prelude.{◌≡◌, ℕ, ◌<◌, ◌≤◌, length, map, slice_index};
ghost use Rattle.networks.specs.Limits.{most_arcs};
ghost use Rattle.networks.specs.Answers.{refusal};
ghost use Rattle.networks.specs.Nets.{shown};
ghost use Rattle.flows.specs.searching.Fits.{Fitting};
ghost use Rattle.flows.specs.Kilter.{InKilter, largest};
ghost use Rattle.flows.specs.Flows.{EachArc, total as total_of};
ghost use Rattle.flows.specs.Settles.{read_price_as};
ghost use Rattle.flows.specs.Stops.{first_stop as first_stop_of};
ghost use Rattle.costs.specs.Kinds.{sums};
ghost use Rattle.search.specs.Going.{Going, Ended, StoodStill};
ghost use Rattle.search.specs.Settling.{end_of, is_none_answer, HasTotal, tables, Settled, Worded};

use crate::guard::{Restore, save};
use crate::seek::{Halt, seek};
use costs::CostKind;
use flows::{arcs_of, checked_total, first_stop};
use networks::{Network, Stop};
use tidy::tidy;

// What settle answers: a least flow with its total, a pause where the budget is used up, or that there is no flow.
#[derive(Clone, Copy, Debug, PartialEq, Eq)]
pub enum Answer<C> {
    Least { total: C, laps: u32 },
    Paused { laps: u32 },
    None,
}

impl<C> Answer<C> {
    fn is_none(&self) -> bool
        ensures { result ≡ is_none_answer self.now }
    {
        matches!(self, Answer::None)
    }
}

// The largest size of an arc's cost.
fn largest_cost<N: Network>(net: &N) -> u64
    ensures { result ≡ largest N.Cost.CostKind.kind (shown (N.meaning net.now)) }
{
    arcs_of(net).map(|arc| arc.cost.size()).max().unwrap_or(0)
}

// A price found of a size above the limit is read as zero.
pub fn read_price<C: CostKind>(p: C, limit: u64) -> C
    ensures { result ≡ read_price_as C.CostKind.kind limit p }
{
    if p.size() <= limit { p } else { C::zero() }
}

fn read_prices<C: CostKind>(prices: &mut [C], limit: u64)
    ensures { prices.new ≡ map (read_price_as C.CostKind.kind limit) prices.old }
{
    for p in prices.iter_mut() {
        *p = read_price(*p, limit);
    }
}

fn clear(marks: &mut [u8])
    ensures { (k : ℕ) → k < length marks.new → slice_index marks.new k ≡ 0 }
{
    marks.fill(0);
}

// Seeks, and answers how that ended, with what the flow costs where one is found.
fn search<N: Network>(
    net: &N,
    flow: &mut [i32],
    prices: &mut [N::Cost],
    marks: &mut [u8],
    budget: u32,
) -> Answer<N::Cost>
    requires going { Going N.Cost.CostKind.kind (N.meaning net.now).nodes (shown (N.meaning net.now)) flow.old 0 0 flow.old prices.old }
    requires few { length flow.old ≤ most_arcs }
    requires marks { length marks.old ≡ (N.meaning net.now).nodes }
    ensures ended { Ended N.Cost.CostKind.kind (N.meaning net.now).nodes (shown (N.meaning net.now)) flow.old (length flow.old) budget flow.new prices.new marks.old marks.new (end_of result) }
    ensures keeps { EachArc (InKilter N.Cost.CostKind.kind prices.old) (shown (N.meaning net.now)) flow.old → StoodStill N.Cost.CostKind.kind (shown (N.meaning net.now)) flow.old flow.new prices.old prices.new 0 (end_of result) }
    ensures total { HasTotal result (total_of (sums N.Cost.CostKind.kind) (shown (N.meaning net.now)) flow.new) }
{
    match seek(net, flow, prices, marks, budget) {
        Ok(laps) => Answer::Least {
            total: checked_total(net, flow).unwrap(),
            laps,
        },
        Err(Halt::Paused(laps)) => Answer::Paused { laps },
        Err(Halt::Cut) => Answer::None,
    }
}

// Searches for a least-cost flow with the imbalances of the flow found, by at most that many laps.
pub fn settle<N: Network>(
    net: &N,
    flow: &mut [i32],
    needs: &[i32],
    prices: &mut [N::Cost],
    marks: &mut [u8],
    budget: u32,
) -> Result<Answer<N::Cost>, Stop>
    ensures stops { refusal result ≡ first_stop_of N.Cost.CostKind.kind.size (N.meaning net.now) flow.old needs.now (length prices.old) (length marks.old) }
    ensures settles { Settled N.Cost.CostKind.kind (N.meaning net.now) budget (tables flow.old needs.now prices.old marks.old) result (tables flow.new needs.now prices.new marks.new) }
    ensures words { Worded N.Cost.CostKind.kind (N.meaning net.now) budget (tables flow.old needs.now prices.old marks.old) result (tables flow.new needs.now prices.new marks.new) }
{
    first_stop(net, flow, needs, prices.len(), marks.len())?;
    let most = (prices.len() as u64 - 1) * largest_cost(net);
    read_prices(prices, most);
    clear(marks);
    let saved = Some(save(flow));
    let mut guard = Restore { flow, saved };
    let answer = search(net, guard.flow, prices, marks, budget);
    tidy(net, prices);
    if !answer.is_none() {
        guard.saved = None;
    }
    Ok(answer)
}
