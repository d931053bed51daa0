//! The starts of plans and the texts of their times. A plan says at which instant its time 0 is, as a text in UTC by
//! month or by the day of the year; times are told by the day of the year. The calendar is `jiff`'s.
#![tactic(auto)]

mod bad_start;
mod forms;
mod reading;
mod start;
mod writing;

pub use bad_start::BadStart;
pub use reading::read_start;
pub use start::Start;
pub use writing::{day_text, push_day_text};
