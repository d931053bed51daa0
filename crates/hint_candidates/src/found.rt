//! The changes that were found.

use aerie_base::{List, OutOfMemory, Text};
use session_sketch::{Piece, digits_in, duration_text};
use std::alloc::Global;

/// The most changes that are gathered.
const MOST: usize = 100;

/// A change of a text: the bytes from one offset up to another become a text.
#[derive(Drop)]
pub struct TextChange {
    /// The offset of the first byte that goes.
    pub from: usize,
    /// The offset behind the last byte that goes: `from` where none does.
    pub to: usize,
    /// What comes there.
    pub put: Text,
}

/// The most bytes that a line of a hint shows of what comes, and of what goes.
const MOST_SHOWN: usize = 60;

/// Whether a line of a hint shows the whole change: what comes has printable characters of ASCII alone.
fn is_shown_whole(from: usize, to: usize, text: &str) -> bool {
    to.saturating_sub(from) <= MOST_SHOWN
        && text.len() <= MOST_SHOWN
        && text.as_bytes().iter().all(|byte| (32..127).contains(byte))
}

/// The changes that were found, the likeliest first.
#[derive(Drop)]
pub(crate) struct Proposals {
    alloc: Global,
    changes: List<TextChange>,
}

impl Proposals {
    /// None yet.
    pub(crate) fn new(alloc: Global) -> Proposals {
        Proposals {
            alloc,
            changes: List::new(alloc),
        }
    }

    /// Whether there is none yet.
    pub(crate) fn is_empty(&self) -> bool {
        self.changes.len() == 0
    }

    /// All of them.
    pub(crate) fn into_changes(self) -> List<TextChange> {
        let Proposals { alloc: _, changes } = self;
        changes
    }

    /// Whether this change was found, or as many as are gathered.
    fn is_enough(&self, from: usize, to: usize, text: &str) -> bool {
        MOST <= self.changes.len()
            || self.changes.as_slice().iter().any(|change| change.from == from
                && change.to == to
                && change.put.as_str() == text)
    }

    /// Adds that the bytes from one offset up to another become a text, if a hint can show that.
    pub(crate) fn put(&mut self, from: usize, to: usize, text: &str) -> Result<(), OutOfMemory> {
        if !is_shown_whole(from, to, text) || self.is_enough(from, to, text) {
            return Ok(());
        }
        let put = Text::new(self.alloc, text)?;
        self.changes.push(TextChange { from, to, put })
    }

    /// The same with the parts of a text, one behind the other.
    pub(crate) fn put_parts(
        &mut self,
        from: usize,
        to: usize,
        parts: &[&[u8]],
    ) -> Result<(), OutOfMemory> {
        if MOST <= self.changes.len() {
            return Ok(());
        }
        let mut joined: Vec<u8> = Vec::new(self.alloc);
        for part in parts {
            joined.extend_from_slice(part)?;
        }
        match str::from_utf8(joined.as_slice()) {
            Ok(text) => self.put(from, to, text),
            Err(_) => Ok(()),
        }
    }

    /// Adds that a piece becomes two texts, one behind the other.
    pub(crate) fn replace_two(
        &mut self,
        piece: Piece,
        one: &[u8],
        other: &[u8],
    ) -> Result<(), OutOfMemory> {
        self.replace_parts(piece, &[one, other])
    }

    /// Adds that a piece becomes a text.
    pub(crate) fn replace(&mut self, piece: Piece, text: &str) -> Result<(), OutOfMemory> {
        self.put(piece.from, piece.to, text)
    }

    /// Adds that a piece becomes these parts.
    pub(crate) fn replace_parts(
        &mut self,
        piece: Piece,
        parts: &[&[u8]],
    ) -> Result<(), OutOfMemory> {
        self.put_parts(piece.from, piece.to, parts)
    }

    /// Adds that a piece becomes a number.
    pub(crate) fn replace_number(&mut self, piece: Piece, number: u64) -> Result<(), OutOfMemory> {
        let text = format!(in self.alloc; "{number}")?;
        self.replace(piece, text.as_str())
    }

    /// Adds that a piece becomes a duration of so many microseconds.
    pub(crate) fn replace_duration(
        &mut self,
        piece: Piece,
        micros: u64,
    ) -> Result<(), OutOfMemory> {
        let text = duration_text(self.alloc, micros)?;
        self.replace(piece, text.as_str())
    }

    /// Adds that a piece becomes the digits among some bytes.
    pub(crate) fn replace_digits(&mut self, piece: Piece, bytes: &[u8]) -> Result<(), OutOfMemory> {
        let digits = digits_in(self.alloc, bytes)?;
        self.replace_parts(piece, &[digits.as_slice()])
    }

    /// Adds that a text is put behind a piece.
    pub(crate) fn behind(&mut self, piece: Piece, text: &str) -> Result<(), OutOfMemory> {
        self.put(piece.to, piece.to, text)
    }

    /// Adds that a text is put in front of a piece.
    pub(crate) fn front(&mut self, piece: Piece, text: &str) -> Result<(), OutOfMemory> {
        self.put(piece.from, piece.from, text)
    }

    /// Adds that these parts are put in front of a piece.
    pub(crate) fn front_parts(&mut self, piece: Piece, parts: &[&[u8]]) -> Result<(), OutOfMemory> {
        self.put_parts(piece.from, piece.from, parts)
    }
}
