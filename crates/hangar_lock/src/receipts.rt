//! What a call is told.

use hangar_core::Reply;

/// What is told of an entry that went into the journal.
#[derive(Drop)]
pub struct Receipt {
    /// Its place in the journal, from 0.
    pub place: u64,
    /// What the workspace answered, a refusal as well.
    pub reply: Reply,
}
