//! The workspace: branches of plans, the actions on them and what each answers, and the journal of actions.
#![tactic(auto)]

mod actions;
mod branches;
mod changes;
mod edits;
mod entries;
mod hangar;
mod held_plans;
mod journal;
mod last_revisions;
pub mod laws;
mod replies;
mod triples;
mod workspaces;

pub use actions::Action;
pub use commands::{Command, Edit};
pub use entries::Entry;
pub use hangar::Hangar;
pub use journal::Journal;
pub use replies::Reply;
pub use triples::Triple;
