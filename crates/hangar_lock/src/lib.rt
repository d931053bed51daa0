//! A lock round a workspace and its journal: all threads act on one journal, each call adding one entry or none.
#![tactic(auto)]

mod desk;
pub mod laws;
mod lock;
mod one_journal;
mod receipts;
mod turnstile;
mod views;

pub use lock::{HangarLock, Pass};
pub use receipts::Receipt;
