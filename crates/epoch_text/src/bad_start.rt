use thiserror::Error;

/// The text is not a start.
#[derive(Clone, Copy, Debug, PartialEq, Eq, Drop, Error)]
#[error("not a start")]
pub struct BadStart;
