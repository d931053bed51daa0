//! The numbers of models and plans, each kept in its range.

mod number;
mod time;

pub use number::Number;
pub use time::Time;
