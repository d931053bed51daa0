//! When plans and directives start, as it is written.

use aerie_base::{Place, Text, When};

/// A text between quotation marks that says an instant: when a plan starts, or a directive.
#[derive(Drop)]
pub struct RawStart {
    /// The place of the text.
    pub at: Place,
    /// The text with its quotation marks.
    pub text: Text,
}

/// When a directive starts.
#[derive(Drop)]
pub enum RawWhen {
    /// At a time of the plan, or behind an edge of another directive.
    Planned(When),
    /// At an instant.
    Instant(RawStart),
}
