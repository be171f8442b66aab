// A plan opened and settled, by a list of that one call.

ghost use Rattle.std.specs.Prelude.{◌≡◌, ℕ, ◌≤◌, [], ◌∷◌, length};
ghost use Rattle.networks.specs.Limits.{most_arcs};
ghost use Rattle.makes.specs.Tables.{rows_net};
ghost use Rattle.flows.specs.Kilter.{lap_limit};
ghost use Rattle.files.specs.Tables.{table_in};
ghost use Rattle.runs.specs.declared.calls.Outcome.TheVariants.{Done};
ghost use Rattle.runs.specs.declared.calls.Call.TheVariants.{Settle};
ghost use Rattle.runs.specs.States.{state};
ghost use Rattle.runs.specs.Events.{came, done};
ghost use Rattle.plans.specs.Keeping.{settle_came};
ghost use Rattle.planner.specs.Once.{full_settle, SettlesOnce};
ghost use Rattle.planner.specs.Files.{as_read, SettledFile};

use crate::room::fill;
use costs::CostKind;
use files::{FileCost, ReadStop, read_table};
use makes::{ArcTable, Row};
use networks::{Bounds, Network, Stop, TagRing};
use plans::run;
use runs::{Call, Outcome};
use search::Answer;

// The answer that an outcome tells, or the stop.
fn answer_of<C>(outcome: Outcome<C>) -> Result<Answer<C>, Stop>
    requires { came outcome ≡ done → ⊥ }
    ensures { settle_came result ≡ came outcome }
{
    match outcome {
        Outcome::Settled(answer) => Ok(answer),
        Outcome::Refused(stop) => Err(stop),
        Outcome::Done => unreachable!(),
    }
}

// As many laps as a search of so many arcs can need: one for each unit between the limits, for each arc.
fn full_budget(arcs: usize) -> u32
    requires { arcs ≤ most_arcs }
    ensures { result ≡ lap_limit arcs }
{
    2 * Bounds::LIMIT as u32 * arcs as u32
}

// Opens a plan and makes the list of one settle; a stop is open's or settle's.
fn make_settle<N: Network>(
    net: &mut N,
    flow: &mut [i32],
    needs: &mut [i32],
    prices: &mut [N::Cost],
    marks: &mut [u8],
    arcs: usize,
    calls: &[Call<N::Cost>],
    outcomes: &mut [Outcome<N::Cost>],
) -> Result<Answer<N::Cost>, Stop>
    requires one { calls.now ≡ full_settle arcs }
    requires room { outcomes.old ≡ Done ∷ [] }
    ensures { SettlesOnce N.Cost.CostKind.kind arcs
        (state (N.meaning net.old) flow.old needs.old prices.old marks.old) result
        (state (N.meaning net.new) flow.new needs.new prices.new marks.new) }
{
    let mut tags = TagRing::<0>::new();
    run(
        net,
        flow,
        needs,
        prices,
        marks,
        &mut tags,
        &[],
        calls,
        outcomes,
    )?;
    answer_of(outcomes[0])
}

// Opens a plan of so many arcs and settles it, with a budget of 2,000,000 laps for each, which no search uses
// up. The list of the one call and its outcome are lent.
fn settle_once<N: Network>(
    net: &mut N,
    flow: &mut [i32],
    needs: &mut [i32],
    prices: &mut [N::Cost],
    marks: &mut [u8],
    arcs: usize,
    calls: &mut [Call<N::Cost>],
    outcomes: &mut [Outcome<N::Cost>],
) -> Result<Answer<N::Cost>, Stop>
    requires few { arcs ≤ most_arcs }
    requires one { length calls.old ≡ 1 }
    requires room { length outcomes.old ≡ 1 }
    ensures { SettlesOnce N.Cost.CostKind.kind arcs
        (state (N.meaning net.old) flow.old needs.old prices.old marks.old) result
        (state (N.meaning net.new) flow.new needs.new prices.new marks.new) }
{
    let budget = full_budget(arcs);
    fill(calls, Call::Settle { budget });
    fill(outcomes, Outcome::Done);
    make_settle(net, flow, needs, prices, marks, arcs, calls, outcomes)
}

// A stop of the plan, told as one of reading.
fn told<C>(settled: Result<Answer<C>, Stop>) -> Result<Answer<C>, ReadStop>
    ensures { result ≡ as_read settled }
{
    settled.map_err(|stop| stop.into())
}

// Reads the table into the lent rows, and settles it.
pub fn settle_file<C: FileCost>(
    text: &[u8],
    rows: &mut [Row<C>],
    flow: &mut [i32],
    needs: &mut [i32],
    prices: &mut [C],
    marks: &mut [u8],
    calls: &mut [Call<C>],
    outcomes: &mut [Outcome<C>],
) -> Result<Answer<C>, ReadStop>
    requires one { length calls.old ≡ 1 }
    requires room { length outcomes.old ≡ 1 }
    ensures { SettledFile C.CostKind.kind
        (λ rows nodes arcs. state (rows_net nodes arcs rows) flow.old needs.old prices.old marks.old)
        rows.old (table_in C.FileCost.numbers (length rows.old) text.now)
        result flow.new marks.new }
{
    match read_table(text, rows) {
        Ok(header) => {
            let arcs = header.arcs;
            let mut net = ArcTable::new(header.nodes, arcs, rows);
            let settled = settle_once(&mut net, flow, needs, prices, marks, arcs, calls, outcomes);
            told(settled)
        }
        Err(stop) => Err(stop),
    }
}
