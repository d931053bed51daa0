//! Rules as they are written: names stand as they are, with their places.

mod constraints;
mod goals;
mod sequences;
mod sums;
mod windows;

pub use constraints::{RawConstraint, RawRule};
pub use goals::{RawAnchor, RawGoal, RawGoalKind, RawNumber, RawRange, RawTemplate};
pub use sequences::{RawSendTest, RawSequenceItem, RawSequenceRule, RawStep, RawWord, RawWordKind};
pub use sums::RawTerm;
pub use windows::{RawTested, RawWindow};
