// The counts of a network file's first line, each in its range.

ghost use Rattle.std.specs.Prelude.{ℕ, ◌≤◌};
ghost use Rattle.networks.specs.Limits.{most_nodes, most_arcs};

#[derive(Clone, Copy, Debug, PartialEq, Eq)]
pub struct Header {
    pub nodes: usize,
    pub arcs: usize,
    // How many numbers a cost has.
    pub tiers: usize,
    pub ghost some_nodes: { 1 ≤ nodes },
    pub ghost few_nodes: { nodes ≤ most_nodes },
    pub ghost few_arcs: { arcs ≤ most_arcs },
    pub ghost some_tiers: { 1 ≤ tiers },
    pub ghost few_tiers: { tiers ≤ 2 },
}
