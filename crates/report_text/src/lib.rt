//! The lines that the program prints, and their parts: each is the compact text of one value of JSON, which a definition
//! gives from the data. What belongs to a model is written with its `Wording`, what belongs to a plan in the calendar with its
//! `Calendar`.
#![tactic(auto)]

mod alone;
mod answers;
mod arguments;
mod cell_lines;
mod dataset_lines;
mod details;
mod goal_lines;
mod journal_lines;
pub mod laws;
mod lines;
mod named;
mod named_datasets;
mod order;
mod outcomes;
mod plans;
mod profile_lines;
mod reply_lines;
mod reports;
mod sequence_lines;
mod span_lines;
mod values;
mod violation_lines;
mod wordings;

pub use alone::Alone;
pub use answers::{Answer, Report, ScheduleReport, SequenceReport};
pub use arguments::Arguments;
pub use journal_lines::journal_line;
pub use lines::{Heading, reply_line, report_line};
pub use profile_lines::write_profiles;
pub use span_lines::{Calendar, write_spans};
pub use violation_lines::write_violations;
pub use wordings::Wording;
