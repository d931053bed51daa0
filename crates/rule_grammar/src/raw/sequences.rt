use aerie_base::{Comparison, Edge, List, Number, Place};
use model_reader::{RawLiteral, RawLiteralKind, RawName};

/// What a word of a command is.
#[derive(Drop)]
pub enum RawWordKind {
    /// A literal.
    Literal(RawLiteralKind),
    /// The argument of the span for a parameter.
    Parameter(RawName),
    /// The result of the span.
    SpanResult,
}

/// A word of a command, and the place of its first token, a `-` included.
#[derive(Drop)]
pub struct RawWord {
    pub at: Place,
    pub what: RawWordKind,
}

/// When a step is sent: where a comparison of the span's argument with a literal holds.
#[derive(Drop)]
pub struct RawSendTest {
    pub parameter: RawName,
    pub how: Comparison,
    pub with: RawLiteral,
}

/// A step: a command that is sent so long after an edge of a span.
#[derive(Drop)]
pub struct RawStep {
    /// The place of its first token.
    pub at: Place,
    pub edge: Edge,
    /// In microseconds: negative after `-`, 0 where no time is given.
    pub shift: Number,
    /// The name of the command.
    pub name: RawName,
    /// Its words in the order of the text.
    pub words: List<RawWord>,
    pub test: Option<RawSendTest>,
}

/// A rule of a sequence.
#[derive(Drop)]
pub enum RawSequenceRule {
    /// The steps of the spans of an activity type.
    Span { kind: RawName, steps: List<RawStep> },
    /// How long after each other two commands of this name stand at least, in microseconds.
    Spacing { name: RawName, least: Number },
}

/// A rule of a sequence, and the place of its first token.
#[derive(Drop)]
pub struct RawSequenceItem {
    pub at: Place,
    pub rule: RawSequenceRule,
}
