//! The rules of a sequence as they are once they were read for a model: activity types and parameters by their numbers.

use aerie_base::{Comparison, Edge, List, Name, Time, Value};

/// A word of a command.
#[derive(Drop)]
pub enum SendWord {
    /// This value.
    Value(Value),
    /// The span's argument for the parameter with this number, counted from 0.
    Parameter(u16),
    /// The span's result.
    SpanResult,
}

/// When a command is sent: where the span's argument compares so with a value.
#[derive(Drop)]
pub struct SendTest {
    /// The parameter, counted from 0.
    pub parameter: u16,
    /// How they are compared, the argument on the left.
    pub how: Comparison,
    /// The value.
    pub with: Value,
}

/// A command that each span of a type gives.
#[derive(Drop)]
pub struct SendStep {
    /// Which edge of the span its time is counted from.
    pub edge: Edge,
    /// How long after the edge, from -10^15 to 10^15 microseconds; before it where negative.
    pub shift: i64,
    /// The command's name.
    pub name: Name,
    /// At most 16 words.
    pub words: List<SendWord>,
    /// When it is sent; always where there is none.
    pub test: Option<SendTest>,
}

/// The commands of the spans of an activity type.
#[derive(Drop)]
pub struct SpanRule {
    /// The type, counted from 0 in the order of the model; another one for each rule.
    pub kind: u16,
    /// At most 64 steps, in the order of the text.
    pub steps: List<SendStep>,
}

/// The rules by which the spans of a run become commands.
#[derive(Drop)]
pub struct Sequencing {
    /// The rules of activity types.
    pub rules: List<SpanRule>,
    /// How long after one another commands of a name stand at least; another name for each.
    pub spacings: List<(Name, Time)>,
}
