// The node that is labelled next while prices are tidied.

ghost use Rattle.std.specs.Prelude.{◌≡◌, ℕ, ◌≤◌, length, not, None};
ghost use Rattle.std.specs.List.{position};
ghost use Rattle.networks.specs.Nets.{shown};
ghost use Rattle.flows.specs.searching.Fits.{Fit, Fitting, Bounded, price_limit};
ghost use Rattle.flows.specs.searching.Prices.{nearer as is_nearer};
ghost use Rattle.tidy.specs.Picks.{slack_of, chosen, nearest_of, first_free_of, unmarked, GoodPick};

use costs::CostKind;
use flows::{arcs_of, opposite, price_at, reduced};
use networks::{Arc, Network};

// A node that can be labelled next, by its place, and how far the unlabelled prices have to rise for that.
#[derive(Clone, Copy)]
pub struct Pick<C> {
    pub place: usize,
    pub far: C,
}

// A network that fits, with a moderate price for each of its nodes and a mark where the node is labelled.
#[derive(Drop)]
pub struct Marked<'a, N: Network> {
    pub net: &'a N,
    pub prices: &'a [N::Cost],
    pub marks: &'a [bool],
    ghost fitting: { Fitting N.Cost.CostKind.kind (length prices.now) (shown (N.meaning net.now)) },
    ghost moderate: { Bounded N.Cost.CostKind.kind price_limit prices.now },
    ghost alike: { length marks.now ≡ length prices.now },
}

fn nearer<C: CostKind>(a: C, b: C) -> bool
    ensures { result ≡ is_nearer C.CostKind.kind a b }
{
    let zero = C::zero();
    if zero.at_most(b) {
        zero.at_most(a) && a.at_most(b)
    } else {
        zero.at_most(a) || b.at_most(a)
    }
}

fn choose<C: CostKind>(best: Option<Pick<C>>, more: Option<Pick<C>>) -> Option<Pick<C>>
    ensures { result ≡ chosen C.CostKind.kind best more }
{
    let (Some(b), Some(p)) = (best, more) else {
        return best.or(more);
    };
    Some(if nearer(b.far, p.far) { b } else { p })
}

// The first place with no mark.
fn free_place(marks: &[bool]) -> Option<usize>
    ensures { result ≡ position not marks.now }
{
    marks.iter().position(|m| !*m)
}

impl<N: Network> Marked<'_, N> {
    // How far the unlabelled prices have to rise for an arc between a labelled node and another to cost nothing.
    fn slack(&self, arc: Arc<N::Cost>) -> Option<Pick<N::Cost>>
        requires { Fit N.Cost.CostKind.kind (length self.now.prices.now) arc }
        ensures { result ≡ slack_of N.Cost.CostKind.kind self.now.prices.now self.now.marks.now arc }
    {
        let (from, to) = (arc.from - 1, arc.to - 1);
        match (self.marks[from], self.marks[to]) {
            (true, false) => Some(Pick {
                place: to,
                far: reduced(arc, self.prices),
            }),
            (false, true) => Some(Pick {
                place: from,
                far: opposite(reduced(arc, self.prices)),
            }),
            _ => None,
        }
    }

    // The nearest node over all arcs between labelled and unlabelled nodes.
    fn nearest(&self) -> Option<Pick<N::Cost>>
        ensures { result ≡ nearest_of N.Cost.CostKind.kind self.now.prices.now self.now.marks.now None (shown (N.meaning self.now.net.now)) }
    {
        arcs_of(self.net).fold(None, |best, arc| choose(best, self.slack(arc)))
    }

    // The first node that is not labelled, which is brought to a price of zero.
    fn first_free(&self) -> Pick<N::Cost>
        requires { 1 ≤ unmarked self.now.marks.now }
        ensures { result ≡ first_free_of N.Cost.CostKind.kind self.now.prices.now self.now.marks.now }
    {
        let place = free_place(self.marks).unwrap();
        let far = opposite(price_at(self.prices, place + 1));
        Pick { place, far }
    }

    // The node to label next.
    pub fn next_pick(&self) -> Pick<N::Cost>
        requires { 1 ≤ unmarked self.now.marks.now }
        ensures { GoodPick N.Cost.CostKind.kind (shown (N.meaning self.now.net.now)) self.now.marks.now self.now.prices.now result }
    {
        self.nearest().unwrap_or_else(|| self.first_free())
    }
}
