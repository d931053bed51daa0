//! Tests of the engine through its public calls: the instants of runs, which the program does not print. They stand here since a
//! crate with tests inside is proved twice.
#![tactic(auto)]

#[cfg(test)]
mod beside;
#[cfg(test)]
mod changes;
#[cfg(test)]
mod edits;
#[cfg(test)]
mod meeting;
#[cfg(test)]
mod plans;
#[cfg(test)]
mod rows;
#[cfg(test)]
mod runs;
#[cfg(test)]
mod spreads;
#[cfg(test)]
mod telling;
