//! Rules as they are once they were read for a model: activity types and resources by their numbers.

use aerie_base::{Boxed, Comparison, List, Name, Shared, Time, Value};
use dataset_in::Series;

/// What a rule reads.
#[derive(Drop)]
pub enum Reading {
    /// A resource, by its number, counted from 0 in the order of the model.
    Resource(u16),
    /// A dataset, by what it says; its name is told to planners.
    Series {
        /// The name, as it stands in the session.
        name: Name,
        /// What it says over time.
        series: Shared<Series>,
    },
}

/// A part of a sum.
#[derive(Drop)]
pub struct RuleTerm {
    /// What the resource is multiplied by, from -10^6 to 10^6.
    pub coefficient: i64,
    /// A linear resource, a discrete resource of whole numbers, or a dataset of numbers.
    pub resource: Reading,
}

/// A sum of terms and a constant.
#[derive(Drop)]
pub struct RuleSum {
    /// At most 16 terms, in the order of the text.
    pub terms: List<RuleTerm>,
    /// What is added to the terms, from -16 * 10^18 to 16 * 10^18.
    pub constant: i128,
}

/// When something holds: at each whole time of a run below its reach it does, or does not.
#[derive(Drop)]
pub enum Window {
    /// `true`, always, or `false`, never.
    Literal(bool),
    /// `and`
    And(Boxed<Window>, Boxed<Window>),
    /// `or`
    Or(Boxed<Window>, Boxed<Window>),
    /// `not`
    Not(Boxed<Window>),
    /// While some span of the activity type with this number, counted from 0 in the order of the model, lasts.
    During(u16),
    /// While the span that a rule for each span of a type is judged for lasts.
    DuringBound,
    /// While a maximal interval of a window lasts whose start was moved by `start` microseconds and its end by `end`.
    Shift {
        /// The window.
        of: Boxed<Window>,
        /// By how much the start is moved, from -10^15 to 10^15 microseconds.
        start: i64,
        /// By how much the end is moved, from -10^15 to 10^15 microseconds.
        end: i64,
    },
    /// While a maximal interval of a window lasts that is at least so long.
    Longer {
        /// The window.
        of: Boxed<Window>,
        /// The least length, in microseconds.
        least: Time,
    },
    /// While a truth holds: a resource or a dataset.
    Truth(Reading),
    /// While a resource of truths or of an enumeration, or a dataset of truths, has a value, or has another.
    Same {
        /// The resource or dataset.
        resource: Reading,
        /// The value.
        value: Value,
        /// True for `==` and false for `!=`.
        equal: bool,
    },
    /// While a comparison of two sums holds.
    Compare {
        /// The left side.
        left: RuleSum,
        /// How the two are compared.
        how: Comparison,
        /// The right side.
        right: RuleSum,
    },
}

/// What a constraint asks for.
#[derive(Drop)]
pub enum Rule {
    /// That a window holds at all times.
    Plain(Window),
    /// That a window holds at all times for each span of an activity type. It may speak of that span.
    Each {
        /// The number of the type, counted from 0 in the order of the model.
        kind: u16,
        /// The window.
        window: Window,
    },
    /// That no span of the one activity type and another span of the other last at one time.
    Forbid(u16, u16),
}

/// A rule with its name.
#[derive(Drop)]
pub struct Constraint {
    /// The name, another for each constraint of a model.
    pub name: Name,
    /// What it asks for.
    pub rule: Rule,
}
