// Imbalances: what leaves a node less what enters it.

ghost use Rattle.std.specs.Prelude.{◌≡◌, ℕ, ◌+◌, ◌≤◌, length, pos, ◌+ℤ◌, ◌-ℤ◌, if◌then◌else◌, nat_eq, unsigned_abs};
ghost use Rattle.networks.specs.Limits.{most_arcs};
ghost use Rattle.networks.specs.Nets.{shown};
ghost use Rattle.flows.specs.searching.Fits.{Small};
ghost use Rattle.flows.specs.Flows.{imbalance as imbalance_of, imbalances_from};

use crate::arcs::arcs_of;
use networks::Network;

// What leaves a node less what enters it.
pub fn imbalance<N: Network>(net: &N, flow: &[i32], node: usize) -> i64
    requires few { length flow.now ≤ most_arcs }
    ensures { result ≡ imbalance_of (shown (N.meaning net.now)) flow.now node }
{
    let mut sum: i64 = 0;
    for (arc, f) in arcs_of(net).zip(flow) {
        sum = balanced(sum, part(arc.from, node, *f), part(arc.to, node, *f));
    }
    sum
}

// What an arc with that end carries past a node.
fn part(end: usize, node: usize, f: i32) -> i64
    ensures value { result ≡ (if nat_eq end node then f else pos 0) }
    ensures bound { unsigned_abs result ≤ 2147483648 }
{
    if end == node { i64::from(f) } else { 0 }
}

// A sum with what leaves added and what enters taken off.
fn balanced(sum: i64, leaves: i64, enters: i64) -> i64
    requires sum { unsigned_abs sum ≤ 4398046511104 }
    requires leaves { unsigned_abs leaves ≤ 2147483648 }
    requires enters { unsigned_abs enters ≤ 2147483648 }
    ensures value { result ≡ sum +ℤ (leaves -ℤ enters) }
    ensures bound { unsigned_abs result ≤ unsigned_abs sum + 4294967296 }
{
    sum + leaves - enters
}

// Writes the imbalance of node k + 1 at place k.
pub fn imbalances<N: Network>(net: &N, flow: &[i32], needs: &mut [i32])
    requires few { length flow.now ≤ most_arcs }
    requires small { Small flow.now }
    ensures { needs.new ≡ imbalances_from 1 (length needs.old) (shown (N.meaning net.now)) flow.now }
{
    for (i, written) in needs.iter_mut().enumerate() {
        *written = imbalance(net, flow, i + 1) as i32;
    }
}
