//! Templates of goals: what is refused of them, and what they mean.

pub(crate) mod meaning;
pub(crate) mod refusals;
