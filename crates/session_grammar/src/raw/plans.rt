//! Plans and datasets as they are written.

use crate::raw::clients::RawGiven;
use crate::raw::starts::{RawStart, RawWhen};
use aerie_base::{List, Place, Text, Time};
use model_reader::{RawLiteral, RawName};

/// A directive of a plan.
#[derive(Drop)]
pub struct RawDirective {
    /// When it starts. Ids of other directives are those that they get here: 1, 2 and so on in the order of the text.
    pub at: RawWhen,
    /// What it gives.
    pub given: RawGiven,
}

/// The rate with which an accumulator begins.
#[derive(Drop)]
pub struct RawRate {
    /// The place of the word `rate`.
    pub at: Place,
    /// A whole number, in units a second.
    pub rate: RawLiteral,
}

/// A cell, and what it begins with in place of what the model says.
#[derive(Drop)]
pub struct RawBeginning {
    pub cell: RawName,
    pub value: RawLiteral,
    /// Where there is none, an accumulator begins with the model's.
    pub rate: Option<RawRate>,
}

/// The plan section.
#[derive(Drop)]
pub struct RawPlan {
    /// The name of the branch that begins with the plan.
    pub branch: RawName,
    pub start: RawStart,
    /// How long the plan lasts, at least 1 microsecond.
    pub duration: Time,
    /// In the order of the text.
    pub beginnings: List<RawBeginning>,
    /// In the order of the text, without a limit.
    pub directives: List<RawDirective>,
}

/// A dataset.
#[derive(Drop)]
pub struct RawDataset {
    pub name: RawName,
    /// The JSON with its backquotes.
    pub text: Text,
}
