//! Windows in rules: what is refused of them, and what they mean.

pub mod meaning;
pub mod refusals;
mod sums;
