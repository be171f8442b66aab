// Network files on examples: files that are read, files read and written back, and faults with their lines, places and causes.
#![tactic(auto)]

#[cfg(test)]
mod checks;
#[cfg(test)]
mod faults;
#[cfg(test)]
mod tables;
