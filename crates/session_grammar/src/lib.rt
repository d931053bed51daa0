//! Sessions as they are written: the grammar of a session, as data, and its reader.
#![tactic(auto)]

pub mod laws;
mod raw;
mod reading;
mod session_answers;

pub use raw::{
    RawBeginning, RawClient, RawCommand, RawDataset, RawDirective, RawFeed, RawFeedValue, RawGiven,
    RawMapping, RawPlan, RawRate, RawSection, RawSections, RawSession, RawStart, RawTypeRule,
    RawWhen,
};
pub use reading::{argument, client, given, when};
pub use session_answers::read_raw_session;
