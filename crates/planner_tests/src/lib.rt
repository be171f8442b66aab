// What the program `plan` prints for a file, compared byte for byte: plans, cuts and refusals; and its readers.
#![tactic(auto)]

#[cfg(test)]
mod answered;
#[cfg(test)]
mod largest;
#[cfg(test)]
mod reading;
#[cfg(test)]
mod refusals;
