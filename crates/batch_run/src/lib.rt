//! Waves of steps, whose jobs are first looked up among stored steps. What is not found is run, on several threads where there is
//! work enough.
#![tactic(auto)]

mod answers;
mod pieces;
mod probes;
mod spread;

pub use probes::{NoProbe, Probe};
pub use spread::Spread;
