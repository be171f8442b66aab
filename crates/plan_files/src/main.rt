//! The program `plan_files`: what `plan` answers to each file that is named, under the file's name.
#![tactic(auto)]

use planner::{Room, answer_through};
use std::fs::File;
use std::{env, io};

fn main(rt: HostRuntime) -> io::Result<()> {
    for name in env::args(&rt)?.skip(1) {
        println!(rt; "{name}")?;
        let room = Room::ask(rt.alloc())?;
        let mut file = File::open(&rt, name.as_str())?;
        answer_through(room, &mut file, &mut rt.stdout())?;
    }
    Ok(())
}
