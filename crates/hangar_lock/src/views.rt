//! What passes know.

use aerie_base::List;
use hangar_core::{Entry, Hangar, Journal, Reply};

/// What a pass knows. No value of it is made: it stands in proofs alone.
pub(crate) struct View {
    /// The workspace with which the lock was opened.
    pub opened: Hangar,
    /// The first entries of the journal, as far as the pass knows them.
    pub seen: Journal,
    /// What was done with the pass and with those that were joined into it, with the places in the journal.
    pub mine: List<(u64, (Entry, Reply))>,
    /// The numbers for which the pass stands.
    pub stands: List<u64>,
    /// How many numbers were split from these.
    pub split: u64,
    /// The ticket with which it waits or is inside.
    pub ticket: Option<u64>,
    /// Whether its turn has come, and it has the workspace and the journal.
    pub inside: bool,
}
