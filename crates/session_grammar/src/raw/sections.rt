//! Sections of rules as they are written: where their rules stand.

use aerie_base::{List, Place};
use model_reader::RawName;

/// A section of rules, which are read elsewhere.
#[derive(Drop)]
pub struct RawSection {
    /// The place of its first word.
    pub at: Place,
    /// The model of which its rules are, where it names one; else they are of the first.
    pub of: Option<RawName>,
    /// The number of the first token of the rules among those of the whole text, from 0.
    pub from: usize,
    /// The number of the token behind them.
    pub to: usize,
}

/// The sections of a session, each sort in the order of the text.
#[derive(Drop)]
pub struct RawSections {
    pub constraints: List<RawSection>,
    pub goals: List<RawSection>,
    pub sequences: List<RawSection>,
}
