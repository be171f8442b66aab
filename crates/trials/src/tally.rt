//! How many trials of a group were made, and how they came out.

use search::Answer;
use std::io;

#[derive(Clone, Copy, Default)]
pub struct Tally {
    pub tried: u64,
    pub agreed: u64,
    pub least: u64,
    pub none: u64,
    pub paused: u64,
}

impl Tally {
    /// A settle that ended.
    pub fn note<C>(&mut self, answer: &Answer<C>, agreed: bool) {
        match answer {
            Answer::Least { .. } => self.least = self.least.saturating_add(1),
            Answer::Paused { .. } => self.paused = self.paused.saturating_add(1),
            Answer::None => self.none = self.none.saturating_add(1),
        }
        self.tried = self.tried.saturating_add(1);
        self.agreed = self.agreed.saturating_add(u64::from(agreed));
    }

    pub fn add(&mut self, other: Tally) {
        self.tried = self.tried.saturating_add(other.tried);
        self.agreed = self.agreed.saturating_add(other.agreed);
        self.least = self.least.saturating_add(other.least);
        self.none = self.none.saturating_add(other.none);
        self.paused = self.paused.saturating_add(other.paused);
    }

    /// A line with the counts of the group.
    pub fn print(&self, rt: &HostRuntime, name: &str) -> io::Result<()> {
        println!(rt;
            "{name}: tried {}, agreed {}, least {}, none {}, pauses {}",
            self.tried, self.agreed, self.least, self.none, self.paused
        )
    }
}
