//! What is found on a run: its spans, the profiles of its resources, the violations of constraints, its cells at a time,
//! and which spans meet at times.
#![tactic(auto)]

mod cells;
mod findings;
mod pairs;
mod reported_run;

pub use cells::cells_at;
pub use findings::{Findings, find_after};
pub use pairs::{PairedInterval, paired_intervals};
pub use reported_run::ReportedRun;
