use crate::raw::windows::RawWindow;
use model_reader::RawName;

/// What a constraint says.
#[derive(Drop)]
pub enum RawRule {
    /// The window holds at all times.
    Plain(RawWindow),
    /// For each span of an activity type the window holds at all times; in it `during` of the bound name is that span.
    Each {
        bound: RawName,
        kind: RawName,
        window: RawWindow,
    },
    /// No span of the first type and another of the second cover the same time.
    Forbid {
        first: RawName,
        second: RawName,
    },
}

/// A constraint. Its first token is its name.
#[derive(Drop)]
pub struct RawConstraint {
    pub name: RawName,
    pub rule: RawRule,
}
