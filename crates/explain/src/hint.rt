//! A change of a session's text.

use aerie_base::Text;

/// A change that takes a session further: the bytes of its text from one place up to another are replaced.
#[derive(Drop)]
pub struct Hint {
    /// The place of the first byte that is replaced, counted in bytes from 0.
    pub from: usize,
    /// The place behind the last byte that is replaced: `from` where nothing is.
    pub to: usize,
    /// What is put there.
    pub put: Text,
}
