//! A network as a file, for a trial in which two answers differ.

use files::FileCost;
use networks::Network;
use std::io;

/// Prints the arcs that the network shows as those of a network file.
pub fn print_network<N: Network>(rt: &HostRuntime, net: &N) -> io::Result<()>
where
    N::Cost: FileCost,
{
    let tiers = N::Cost::tiers();
    println!(rt;
        "(net (nodes {}) (arcs {}) (tiers {tiers}))",
        net.nodes(),
        net.arcs()
    )?;
    for a in 1..=net.arcs() {
        let Some(arc) = net.arc(a) else {
            continue;
        };
        let (from, to, lo, hi) = (arc.from, arc.to, arc.lo, arc.hi);
        print!(rt;
            "(arc (from {from}) (to {to}) (lo {lo}) (hi {hi}) (cost {}",
            arc.cost.first()
        )?;
        if tiers == 2 {
            print!(rt; " {}", arc.cost.second())?;
        }
        println!(rt; "))")?;
    }
    Ok(())
}
