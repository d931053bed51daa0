//! The three-way merge of plans: what a source did since a base is done to a target as well.
#![tactic(auto)]

mod anchors;
mod answers;
mod cycles;
mod laws;
mod left;
mod lists;
mod merging;
mod renaming;
mod table;
mod wide_directives;

pub use answers::{Conflict, ConflictKind, MergeError, Merged};
pub use cycles::reached_after_enough;
pub use laws::{
    a_source_that_changed_nothing, a_target_that_changed_nothing, merges_are_of_the_model,
};
pub use merging::merge;
