//! Sessions: what the text of a session means, or the first thing in it that is refused.
#![tactic(auto)]

mod beginnings;
mod begun_models;
mod causes;
mod clients;
mod cut_sessions;
mod dataset_names;
mod datasets;
mod feeds;
mod known_parts;
pub mod laws;
mod literals;
mod mappings;
mod meant_mappings;
mod models;
mod names;
mod plans;
mod quotes;
mod reading;
mod sections;
mod session;
mod session_error;
mod sessions;
mod starts;
mod times;

pub use cut_sessions::read_cut_session;
pub use reading::read_session;
pub use session::{Client, ModelPart, Session};
pub use session_error::SessionError;
