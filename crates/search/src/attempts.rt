// One attempt to bring an arc nearer to kilter: by a change of prices, or by one lap.

ghost use Rattle.std.specs.Prelude.{◌≡◌, ℕ, ◌+◌, ◌<◌, ◌≤◌, true, false, length, if◌then◌else◌, MatchOption, slice_index};
ghost use Rattle.networks.specs.Limits.{most_nodes};
ghost use Rattle.networks.specs.Nets.{shown};
ghost use Rattle.flows.specs.searching.Fits.{Bounded};
ghost use Rattle.reach.specs.Scans.{is_labelled};
ghost use Rattle.reach.specs.Rounds.{large};
ghost use Rattle.search.specs.Ready.{Ready};
ghost use Rattle.flows.specs.searching.Prices.{Eased, SignsKept};
ghost use Rattle.search.specs.Going.{any_large as any_large_of, KilterAt, Wanted, Attempted};

use costs::CostKind;
use flows::{Step, View, amiss, far_end};
use labels::{Labels, lap};
use networks::Network;
use reach::{Over, reach};
use tidy::tidy;

// Prices above this size are tidied before the next search for a chain.
const LARGE: u64 = 1_000_000_000_000;

// How an attempt ends: the arc is in kilter, a lap was made, a lap could be made but may not, or there is a cut.
#[derive(Clone, Copy)]
pub enum Tried {
    Kilter,
    Lapped,
    Short,
    Cut,
}

// The step over an arc that brings it nearer to kilter, and the node that it leads to.
#[derive(Clone, Copy)]
pub struct Choice {
    pub step: Step,
    pub source: usize,
}

// Whether some price is to be tidied first.
fn any_large<C: CostKind>(prices: &[C]) -> bool
    ensures { result ≡ any_large_of C.CostKind.kind prices.now }
{
    prices.iter().any(|p| p.size() > LARGE)
}

// Tidies the prices where one is large.
fn tame<N: Network>(net: &N, flow: &[i32], prices: &mut [N::Cost])
    requires { Ready N.Cost.CostKind.kind (N.meaning net.now).nodes (shown (N.meaning net.now)) flow.now prices.old }
    ensures ready { Ready N.Cost.CostKind.kind (N.meaning net.now).nodes (shown (N.meaning net.now)) flow.now prices.new }
    ensures eased { Eased N.Cost.CostKind.kind (shown (N.meaning net.now)) flow.now prices.old prices.new }
    ensures signs { SignsKept N.Cost.CostKind.kind (shown (N.meaning net.now)) prices.old prices.new }
    ensures tame { Bounded N.Cost.CostKind.kind large prices.new }
{
    if any_large(prices) {
        tidy(net, prices);
    }
}

// The step that the arc at i wants; none where it is in kilter.
fn wanted<N: Network>(view: &View<N>, i: usize) -> Option<Choice>
    requires { i < length view.now.flow.now }
    ensures { MatchOption result (KilterAt N.Cost.CostKind.kind (shown (N.meaning view.now.net.now)) view.now.flow.now view.now.prices.now i) (λ x. Wanted N.Cost.CostKind.kind (length view.now.prices.now) (shown (N.meaning view.now.net.now)) view.now.flow.now view.now.prices.now i x.step x.source) }
{
    let arc = view.arc(i);
    let along = amiss(view.see(i, arc))?;
    Some(Choice {
        step: Step::over(i, arc, along),
        source: far_end(arc, along),
    })
}

// Marks the labelled nodes with 1 and the others with 0.
fn mark(marks: &mut [u8], labels: &Labels)
    requires { length marks.old ≤ most_nodes }
    ensures { (k : ℕ) → k < length marks.new → slice_index marks.new k ≡ (if is_labelled labels.now (k + 1) then 1 else 0) }
{
    for (i, m) in marks.iter_mut().enumerate() {
        *m = u8::from(labels.place(i + 1).is_some());
    }
}

// One attempt at the arc at i; a lap is made only where one may be.
pub fn attempt<N: Network>(
    net: &N,
    flow: &mut [i32],
    prices: &mut [N::Cost],
    marks: &mut [u8],
    i: usize,
    may_lap: bool,
) -> Tried
    requires ready { Ready N.Cost.CostKind.kind (N.meaning net.now).nodes (shown (N.meaning net.now)) flow.old prices.old }
    requires arc { i < length flow.old }
    requires marks { length marks.old ≡ (N.meaning net.now).nodes }
    ensures ready { Ready N.Cost.CostKind.kind (N.meaning net.now).nodes (shown (N.meaning net.now)) flow.new prices.new }
    ensures eased { Eased N.Cost.CostKind.kind (shown (N.meaning net.now)) flow.old prices.old prices.new }
    ensures ends { Attempted N.Cost.CostKind.kind (shown (N.meaning net.now)) i flow.old flow.new prices.new marks.old marks.new result }
    ensures keeps { KilterAt N.Cost.CostKind.kind (shown (N.meaning net.now)) flow.old prices.old i → (result ≡ Tried.Kilter) × SignsKept N.Cost.CostKind.kind (shown (N.meaning net.now)) prices.old prices.new }
    ensures spends { (result ≡ Tried.Lapped → may_lap ≡ true) × (result ≡ Tried.Short → may_lap ≡ false) }
{
    tame(net, flow, prices);
    let Some(choice) = wanted(&View { net, flow, prices }, i) else {
        return Tried::Kilter;
    };
    let mut labels = Labels::begin(choice.source);
    match reach(net, flow, prices, choice.step, &mut labels) {
        Err(Over::Kilter) => Tried::Kilter,
        Err(Over::Cut) => {
            mark(marks, &labels);
            Tried::Cut
        }
        Ok(()) => {
            if !may_lap {
                return Tried::Short;
            }
            lap(net, flow, prices, choice.step, &labels);
            Tried::Lapped
        }
    }
}
