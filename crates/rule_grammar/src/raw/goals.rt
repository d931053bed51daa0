use crate::raw::windows::RawWindow;
use aerie_base::{List, Number, Place};
use model_reader::{RawLiteral, RawName};

/// A number, and the place of its first token, a `-` included. A duration is the number of its microseconds.
#[derive(Clone, Copy, Debug)]
pub struct RawNumber {
    pub at: Place,
    pub number: Number,
}

/// A range of time in microseconds, its end not in it.
#[derive(Clone, Copy, Debug)]
pub struct RawRange {
    pub from: Number,
    pub to: RawNumber,
}

/// An activity with arguments, as a goal gives it.
#[derive(Drop)]
pub struct RawTemplate {
    /// The activity type.
    pub kind: RawName,
    /// The arguments, each with the name of its parameter, in the order of the text.
    pub arguments: List<(RawName, RawLiteral)>,
}

/// What a coexistence goal stands beside.
#[derive(Drop)]
pub enum RawAnchor {
    /// The starts of the spans of an activity type.
    Starts(RawName),
    /// Their ends.
    Ends(RawName),
    /// The starts of the intervals of a window.
    Windows(RawWindow),
}

/// What a goal asks for.
#[derive(Drop)]
pub enum RawGoalKind {
    /// A start at least so often in a range.
    Recurrence {
        every: RawNumber,
        range: RawRange,
    },
    /// A start so long behind each anchor.
    Coexistence {
        anchor: RawAnchor,
        from: Number,
        to: RawNumber,
    },
    /// So many starts in a range.
    Cardinality {
        count: RawNumber,
        range: RawRange,
    },
}

/// A goal. Its first token is its name.
#[derive(Drop)]
pub struct RawGoal {
    pub name: RawName,
    pub template: RawTemplate,
    pub kind: RawGoalKind,
    /// The constraints that placements may not violate, in the order of the text.
    pub keeping: List<RawName>,
    /// Whether the placements are taken back where the goal is not met.
    pub rollback: bool,
}
