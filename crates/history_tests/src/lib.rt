//! Tests of published chapters, of what only a call can show. They stand here since a crate with tests inside is proved twice.
#![tactic(auto)]

#[cfg(test)]
mod chapters;
#[cfg(test)]
mod publishing;
#[cfg(test)]
mod threads;
