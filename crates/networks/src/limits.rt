// The limits of networks.

ghost use Rattle.std.specs.Prelude.{◌≡◌, ℕ, if◌then◌else◌, Some, None, nat_le};
ghost use Rattle.networks.specs.Limits.{counts_fit, cost_limit};
ghost use Rattle.networks.specs.Answers.{refusal};

use crate::Stop;

// The most nodes and arcs of one that is fit.
pub const MOST_NODES: usize = 256;

pub const MOST_ARCS: usize = 1024;

// The largest size of an arc's cost.
pub const COST_LIMIT: u64 = 1_000_000;

// Whether a cost of that size is within the limit.
pub fn cost_fits(size: u64) -> bool
    ensures { result ≡ nat_le size cost_limit }
{
    size <= COST_LIMIT
}

// Refuses a count of nodes that is 0, and one of nodes or arcs beyond the limits.
pub fn check_counts(nodes: usize, arcs: usize) -> Result<(), Stop>
    ensures { refusal result ≡ (if counts_fit nodes arcs then None else Some (1, 0)) }
{
    if !(1..=MOST_NODES).contains(&nodes) || arcs > MOST_ARCS {
        return Err(Stop::Counts);
    }
    Ok(())
}
