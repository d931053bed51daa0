//! Sessions as they are written: what a reader makes of the text before names are looked up.

mod clients;
mod mappings;
mod plans;
mod sections;
mod sessions;
mod starts;

pub use clients::{RawClient, RawCommand, RawGiven};
pub use mappings::{RawFeed, RawFeedValue, RawMapping, RawTypeRule};
pub use plans::{RawBeginning, RawDataset, RawDirective, RawPlan, RawRate};
pub use sections::{RawSection, RawSections};
pub use sessions::RawSession;
pub use starts::{RawStart, RawWhen};
