//! The work of a client: its commands, one after another, each by entries of a journal that all clients share.
#![tactic(auto)]

mod acting;
mod benches;
mod carrying_out;
mod client_commands;
mod fetching;
pub mod laws;
mod lines;
mod merging;
mod missions;
mod scheduling;
mod simulating;
mod workplace;

pub use benches::Benches;
pub use carrying_out::carry_out;
pub use client_commands::{work, work_on};
pub use missions::{Mission, ReportForm, RuledModel};
pub use workplace::{Assignment, ClientCommand, NumberedClient, Worker, Workplace};
