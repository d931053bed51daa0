//! Reading: what the marks of rules are, part by part.

mod constraints;
mod goals;
mod leveled;
mod literals;
mod sequences;
mod sums;
mod templates;
mod tested;
mod windows;

pub use constraints::constraint_list;
pub use goals::goal_list;
pub use leveled::{Joining, LeveledSum, LeveledWindow, WindowPart};
pub use sequences::sequence;
