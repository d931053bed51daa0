//! The readers, each over its definition in `specs/reading`.

mod commands;
mod directives;
mod mappings;
mod plans;
mod sections;
mod sessions;

pub use commands::client;
pub use directives::{argument, given, when};
pub use sessions::whole_session;
