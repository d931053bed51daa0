//! Parts of windows with the levels that stand inside one another in them: operators with what they take on both sides, `not`,
//! and pairs of parentheses; the `+` and `-` of a sum are none.

use crate::raw::{RawTerm, RawWindow};
use aerie_base::List;

/// A sum, and whether it has a level: the `*` of a term.
#[derive(Drop)]
pub struct LeveledSum {
    /// Its terms.
    pub terms: List<RawTerm>,
    /// Its levels.
    pub height: usize,
}

/// A window and its levels.
#[derive(Drop)]
pub struct LeveledWindow {
    /// The window.
    pub window: RawWindow,
    /// Its levels.
    pub height: usize,
}

/// A part of a window, from the loosest to the tightest.
#[derive(Clone, Copy, Debug)]
pub enum WindowPart {
    /// A whole window.
    Window,
    /// An operand of `or`.
    Conjunction,
    /// An operand of `and`.
    Atom,
}

/// An operator between two windows.
#[derive(Clone, Copy, Debug)]
pub enum Joining {
    /// `and`
    And,
    /// `or`
    Or,
}
