//! Changes of the text of a refused session that may mend it. Nothing is promised of them but that they are given: whether one takes
//! the session further is told by trying it.
#![tactic(auto)]

mod blocks;
mod changes;
mod datasets;
mod directives;
mod found;
mod marks;
mod names;
mod numbers;
mod starts;
mod syntax;
mod types;
mod words;

pub use changes::{changes_at, changes_of_dataset, changes_of_directive};
pub use found::TextChange;
