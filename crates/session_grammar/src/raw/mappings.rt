//! Mappings as they are written.

use aerie_base::List;
use model_reader::{RawLiteral, RawName};

/// What a parameter of the new type gets.
#[derive(Drop)]
pub enum RawFeedValue {
    /// The value of the parameter of the old type that has this name.
    Parameter(RawName),
    /// This value.
    Literal(RawLiteral),
}

/// A parameter of the new type, and what it gets.
#[derive(Drop)]
pub struct RawFeed {
    pub parameter: RawName,
    pub value: RawFeedValue,
}

/// What becomes of the directives of an activity type.
#[derive(Drop)]
pub struct RawTypeRule {
    /// Their type in the old model.
    pub old: RawName,
    /// Their type in the new model.
    pub new: RawName,
    /// In the order of the text.
    pub feeds: List<RawFeed>,
}

/// How the plans of one model become plans of another.
#[derive(Drop)]
pub struct RawMapping {
    /// The old model.
    pub from: RawName,
    /// The new model.
    pub to: RawName,
    /// In the order of the text.
    pub rules: List<RawTypeRule>,
}
