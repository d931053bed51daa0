//! Tests of the crates that read and write texts, of what only a call can show: sources and sinks, and calls that the program
//! does not make. They stand here since a crate with tests inside is proved twice.
#![tactic(auto)]

#[cfg(test)]
mod copied_models;
#[cfg(test)]
mod durations_as_tokens;
#[cfg(test)]
mod edges;
#[cfg(test)]
mod lines_of_json;
#[cfg(test)]
mod lists_of_entries;
