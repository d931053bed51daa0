//! Tests of the lowest crates, of what only a call can show: generic functions, traits and keys at a type. They stand here since
//! a crate with tests inside is proved twice.
#![tactic(auto)]

#[cfg(test)]
mod containers;
#[cfg(test)]
mod durations;
#[cfg(test)]
mod effects;
#[cfg(test)]
mod keys;
#[cfg(test)]
mod names;
#[cfg(test)]
mod paths;
#[cfg(test)]
mod steps;
#[cfg(test)]
mod values;
