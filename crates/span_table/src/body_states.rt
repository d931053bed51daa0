//! What is known of each body: whether it has ended, and what it returned.

ghost use Rattle.std.specs.Prelude.{◌≡◌, Some, IsTrue};
ghost use Rattle.span_table.specs.BodyStates.{is_open_body, noted_state};

use aerie_base::Value;
use run_data::Status;

/// How far a body has come.
#[derive(Clone, Copy)]
pub(crate) enum BodyState {
    /// It has not ended.
    Open,
    /// It has ended, with what it returned.
    Over(Option<Value>),
}

impl BodyState {
    /// Whether the body has not ended.
    pub(crate) fn is_open(&self) -> bool
        ensures { result ≡ is_open_body self.now }
    {
        match self {
            BodyState::Open => true,
            BodyState::Over(_) => false,
        }
    }
}

/// The state after a step that ended so. A body ends once.
pub(crate) fn state_with(before: &Option<BodyState>, status: &Status) -> BodyState
    ensures { result ≡ noted_state before.now status.now }
{
    if let Some(BodyState::Over(result)) = before {
        return BodyState::Over(*result);
    }
    match status {
        Status::Done(result) => BodyState::Over(*result),
        _ => BodyState::Open,
    }
}

/// Whether such a step is known to leave the state as it was.
pub(crate) fn stays(before: &Option<BodyState>, status: &Status) -> bool
    ensures { IsTrue result → before.now ≡ Some (noted_state before.now status.now) }
{
    match before {
        None => false,
        Some(BodyState::Open) => !matches!(status, Status::Done(_)),
        Some(BodyState::Over(_)) => true,
    }
}
