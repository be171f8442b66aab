// Prices and reduced costs, whose sums are within the kinds' range.

ghost use Rattle.std.specs.Prelude.{◌≡◌, ℕ, ◌+◌, ◌<◌, ◌≤◌, Bool, length};
ghost use Rattle.costs.specs.Kinds.{size_limit};
ghost use Rattle.flows.specs.searching.Fits.{Fit, Bounded, price_limit, change_limit};
ghost use Rattle.flows.specs.Kilter.{price, reduced as reduced_at};
ghost use Rattle.flows.specs.searching.Prices.{Tells, Raised};

use costs::CostKind;
use networks::Arc;

// The sum of two costs that are not large.
pub fn sum<C: CostKind>(a: C, b: C) -> C
    requires { C.CostKind.kind.size a + C.CostKind.kind.size b ≤ size_limit }
    ensures value { result ≡ C.CostKind.kind.plus a b }
    ensures small { C.CostKind.kind.size result ≤ C.CostKind.kind.size a + C.CostKind.kind.size b }
{
    a.plus(b).unwrap()
}

// The negative of a cost that is not large.
pub fn opposite<C: CostKind>(a: C) -> C
    requires { C.CostKind.kind.size a ≤ size_limit }
    ensures value { result ≡ C.CostKind.kind.neg a }
    ensures small { C.CostKind.kind.size result ≤ C.CostKind.kind.size a }
{
    a.negated().unwrap()
}

// The price of a node.
pub fn price_at<C: CostKind>(prices: &[C], node: usize) -> C
    requires low { 1 ≤ node }
    requires high { node ≤ length prices.now }
    requires moderate { Bounded C.CostKind.kind price_limit prices.now }
    ensures value { result ≡ price C.CostKind.kind prices.now node }
    ensures small { C.CostKind.kind.size result ≤ price_limit }
{
    prices[node - 1]
}

// The reduced cost of an arc: its cost with the price where it begins added and the price where it ends taken off.
pub fn reduced<C: CostKind>(arc: Arc<C>, prices: &[C]) -> C
    requires fits { Fit C.CostKind.kind (length prices.now) arc }
    requires moderate { Bounded C.CostKind.kind price_limit prices.now }
    ensures value { result ≡ reduced_at C.CostKind.kind prices.now arc }
    ensures small { C.CostKind.kind.size result ≤ change_limit }
{
    let enter = opposite(price_at(prices, arc.to));
    sum(sum(arc.cost, price_at(prices, arc.from)), enter)
}

// Adds a cost to each price, but not at the places that the test says are inside.
pub fn raise<C: CostKind, F: Fn(usize) -> bool>(prices: &mut [C], by: C, is_inside: F)
    requires callable { (k : ℕ) → k < length prices.old → F.pre is_inside k }
    requires moderate { Bounded C.CostKind.kind price_limit prices.old }
    requires small { C.CostKind.kind.size by ≤ change_limit }
    ensures raised { (inside : ℕ → Bool) → Tells (F.post is_inside) (length prices.old) inside → Raised C.CostKind.kind (length prices.old) by inside prices.old prices.new }
    ensures long { length prices.new ≡ length prices.old }
{
    for (i, price) in prices.iter_mut().enumerate() {
        if !is_inside(i) {
            *price = sum(*price, by);
        }
    }
}
