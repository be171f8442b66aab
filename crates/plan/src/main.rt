// The program `plan`: a network file on standard input, and on standard output its least-cost plan, the cut
// that shows that there is none, or a numbered refusal.
#![tactic(auto)]

use planner::{Room, answer_through};
use std::io;

fn main(rt: HostRuntime) -> io::Result<()> {
    let room = Room::ask(rt.alloc())?;
    answer_through(room, &mut rt.stdin(), &mut rt.stdout())
}
