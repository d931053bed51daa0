use crate::raw::sums::RawTerm;
use aerie_base::{Boxed, Comparison, List, Number};
use model_reader::RawName;

/// What a resource or dataset is compared with by `==` or `!=`, where it is no sum.
#[derive(Drop)]
pub enum RawTested {
    /// `true` or `false`
    Truth(bool),
    /// `kind.variant`: a variant of an enumeration, by the names of both.
    Variant { kind: RawName, variant: RawName },
}

/// An expression that holds at some times. Parentheses leave no trace. `and` and `or` group to the left.
#[derive(Drop)]
pub enum RawWindow {
    /// `true` or `false`: all times, or none.
    Literal(bool),
    /// The times of both.
    And(Boxed<RawWindow>, Boxed<RawWindow>),
    /// The times of either.
    Or(Boxed<RawWindow>, Boxed<RawWindow>),
    /// All other times.
    Not(Boxed<RawWindow>),
    /// The times that a span of the activity type covers, or the span that `for` binds.
    During(RawName),
    /// Each interval with its start and its end moved by so many microseconds.
    Shift {
        of: Boxed<RawWindow>,
        start: Number,
        end: Number,
    },
    /// The intervals that are as long at least, in microseconds.
    Longer {
        of: Boxed<RawWindow>,
        least: Number,
    },
    /// The times at which a truth resource or dataset is true.
    Truth(RawName),
    /// The times at which a resource or dataset has this value, or at which it does not.
    Same {
        resource: RawName,
        with: RawTested,
        /// True for `==` and false for `!=`.
        equal: bool,
    },
    /// A comparison of two sums, whose terms are in the text's order.
    Compare {
        left: List<RawTerm>,
        how: Comparison,
        right: List<RawTerm>,
    },
}
