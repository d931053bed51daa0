//! Windows of a rule for each span of a type, as they are judged for one span after another.

use crate::offsets::Offset;
use aerie_base::{Boxed, Time};
use windows::Windows;

/// A window of which the parts that do not speak of the span that the rule is judged for were evaluated.
#[derive(Drop)]
pub(crate) enum SpanWindow {
    /// At the times at which a part holds that does not speak of the span.
    Times(Windows),
    /// While the span lasts.
    Lasting,
    /// `and`
    And(Boxed<SpanWindow>, Boxed<SpanWindow>),
    /// `or`
    Or(Boxed<SpanWindow>, Boxed<SpanWindow>),
    /// `not`
    Not(Boxed<SpanWindow>),
    /// While a maximal interval lasts whose edges were moved.
    Shift {
        of: Boxed<SpanWindow>,
        start: Offset,
        end: Offset,
    },
    /// While a maximal interval lasts that is at least so long.
    Longer {
        of: Boxed<SpanWindow>,
        least: Time,
    },
}
