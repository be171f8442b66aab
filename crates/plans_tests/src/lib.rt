// Plans on examples: lists of calls made by `run` on tables, among them one that drives prices up, and
// what a refused call leaves.
#![tactic(auto)]

#[cfg(test)]
mod doubling;
#[cfg(test)]
mod passing;
#[cfg(test)]
mod refused;
#[cfg(test)]
mod stops;
#[cfg(test)]
mod tags;
#[cfg(test)]
mod triangles;
