// A network with fresh tables, settled, and its answer printed.

use costs::CostKind;
use files::FileCost;
use networks::Network;
use search::{Answer, settle};
use std::io;

fn print_numbers(rt: &HostRuntime, flow: &[i32]) -> io::Result<()> {
    for carried in flow.iter().take(8) {
        print!(rt; " {carried}")?;
    }
    println!(rt; "")
}

fn print_cut(rt: &HostRuntime, marks: &[u8]) -> io::Result<()> {
    for (i, mark) in marks.iter().enumerate() {
        if *mark == 1 {
            print!(rt; " node {}", i + 1)?;
        }
    }
    println!(rt; "")
}

// Settles from one flow on every arc, with the needs given, and prints the answer with up to eight flows.
pub fn try_from<N: Network>(
    rt: &HostRuntime,
    name: &str,
    net: &N,
    start: i32,
    needs: &[i32],
    budget: u32,
) -> io::Result<()>
where
    N::Cost: FileCost,
{
    let heap = rt.alloc();
    let mut flow = vec![in heap; start; net.arcs()]?;
    let mut prices = vec![in heap; N::Cost::zero(); net.nodes()]?;
    let mut marks = vec![in heap; 0u8; net.nodes()]?;
    match settle(net, &mut flow, needs, &mut prices, &mut marks, budget) {
        Ok(Answer::Least { total, laps }) => {
            let first = total.first();
            let second = total.second();
            print!(rt; "{name}: least {first} {second}, laps {laps}, flow")?;
            print_numbers(rt, &flow)
        }
        Ok(Answer::Paused { laps }) => println!(rt; "{name}: paused, laps {laps}"),
        Ok(Answer::None) => {
            print!(rt; "{name}: none, a cut of")?;
            print_cut(rt, &marks)
        }
        Err(stop) => println!(rt; "{name}: refused {stop}"),
    }
}
