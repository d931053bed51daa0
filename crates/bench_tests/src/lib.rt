//! Tests of benches, of what only a call can show. They stand here since a crate with tests inside is proved twice.
#![tactic(auto)]

#[cfg(test)]
mod benches;
