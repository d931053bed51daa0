//! Tests of the workspace and of its lock, of what only a call can show. They stand here since a crate with tests inside is
//! proved twice.
#![tactic(auto)]

#[cfg(test)]
mod opening;
#[cfg(test)]
mod placing;
#[cfg(test)]
mod sharing;
