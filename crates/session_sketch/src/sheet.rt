//! The pieces of a text around the one that is refused.

use crate::pieces::{Piece, is_word_byte};
use aerie_base::Place;

/// A text in pieces, and the number of the piece that is refused.
#[derive(Drop)]
pub struct Sheet<'a> {
    /// The text.
    pub bytes: &'a [u8],
    /// Its pieces, behind four pieces of nothing.
    pub pieces: &'a [Piece],
    /// The number of the piece that is refused; as many as there are pieces where it is the end of the text.
    pub at: usize,
}

/// The part of a text from an offset up to another, as far as it is there.
pub fn part(bytes: &[u8], from: usize, to: usize) -> &[u8] {
    if from <= to && to <= bytes.len() {
        &bytes[from..to]
    } else {
        &[]
    }
}

/// The offset at which a place stands, or the length of the text where it does not reach so far.
pub fn offset_of(bytes: &[u8], place: Place) -> usize {
    let mut line = 1u32;
    let mut column = 1u32;
    for at in 0..bytes.len() {
        let byte = bytes[at];
        let begins = !(128..192).contains(&byte);
        if begins && line == place.line && place.column <= column {
            return at;
        }
        if place.line < line {
            return at;
        }
        if byte == b'\n' {
            line = line.saturating_add(1);
            column = 1;
        } else if begins {
            column = column.saturating_add(1);
        }
    }
    bytes.len()
}

/// The number of the first piece that does not end in front of an offset.
pub fn number_at(pieces: &[Piece], offset: usize) -> usize {
    for number in 0..pieces.len() {
        if offset < pieces[number].to {
            return number;
        }
    }
    pieces.len()
}

/// Whether the bytes are a word: a letter or `_`, and then letters, digits and `_`.
pub fn is_word(bytes: &[u8]) -> bool {
    match bytes {
        [] => false,
        [first, ..] => !first.is_ascii_digit() && bytes.iter().all(|byte| is_word_byte(*byte)),
    }
}

/// Whether the bytes are digits.
pub fn is_digits(bytes: &[u8]) -> bool {
    match bytes {
        [] => false,
        _ => bytes.iter().all(|byte| byte.is_ascii_digit()),
    }
}

/// Whether the bytes begin with a digit.
pub fn begins_with_digit(bytes: &[u8]) -> bool {
    match bytes {
        [] => false,
        [first, ..] => first.is_ascii_digit(),
    }
}

impl<'a> Sheet<'a> {
    /// A piece, or nothing at the end of the text.
    pub fn piece(&self, number: usize) -> Piece {
        match self.pieces.get(number) {
            Some(piece) => *piece,
            None => Piece {
                from: self.bytes.len(),
                to: self.bytes.len(),
            },
        }
    }

    /// The text of a piece.
    pub fn text(&self, number: usize) -> &'a [u8] {
        let piece = self.piece(number);
        part(self.bytes, piece.from, piece.to)
    }

    /// The text from a piece up to the end of another.
    pub fn texts(&self, first: usize, last: usize) -> &'a [u8] {
        part(self.bytes, self.piece(first).from, self.piece(last).to)
    }

    /// Whether a piece is this text.
    pub fn is(&self, number: usize, text: &str) -> bool {
        self.text(number) == text.as_bytes()
    }

    /// Whether a piece is one of these texts.
    pub fn is_one_of(&self, number: usize, texts: &[&str]) -> bool {
        let piece = self.text(number);
        texts.iter().any(|text| text.as_bytes() == piece)
    }

    /// The number of the piece so many in front of the one that is refused.
    pub fn back(&self, count: usize) -> usize {
        self.at.saturating_sub(count)
    }

    /// The number of the piece so many behind the one that is refused.
    pub fn on(&self, count: usize) -> usize {
        self.at.saturating_add(count)
    }

    /// The number of the first piece from one on, and among so many, that is this text.
    pub fn next(&self, from: usize, text: &str) -> Option<usize> {
        let to = self.pieces.len();
        for number in from..to {
            if self.is(number, text) {
                return Some(number);
            }
        }
        None
    }

    /// The number of the last piece in front of one that is this text.
    pub fn last(&self, before: usize, text: &str) -> Option<usize> {
        let mut found = None;
        let to = before.min(self.pieces.len());
        for number in 0..to {
            if self.is(number, text) {
                found = Some(number);
            }
        }
        found
    }

    /// The number of the brace or parenthesis that closes the one at a number.
    pub fn closing(&self, from: usize) -> Option<usize> {
        let mut open = 0usize;
        let to = self.pieces.len();
        for number in from..to {
            if self.is_one_of(number, &["{", "("]) {
                open = open.saturating_add(1);
            } else if self.is_one_of(number, &["}", ")"]) {
                open = open.saturating_sub(1);
                if open == 0 {
                    return Some(number);
                }
            }
        }
        None
    }

    /// The number of the brace or parenthesis that is open in front of a piece.
    pub fn opening(&self, before: usize) -> Option<usize> {
        let mut closed = 0usize;
        let to = before.min(self.pieces.len());
        for number in (0..to).rev() {
            if self.is_one_of(number, &["}", ")"]) {
                closed = closed.saturating_add(1);
            } else if self.is_one_of(number, &["{", "("]) {
                if closed == 0 {
                    return Some(number);
                }
                closed = closed.saturating_sub(1);
            }
        }
        None
    }
}

/// The piece from the beginning of one up to the end of another.
pub fn from_to(sheet: &Sheet, first: usize, last: usize) -> Piece {
    Piece {
        from: sheet.piece(first).from,
        to: sheet.piece(last).to,
    }
}

/// The piece of this number, from 0, among those that are this text.
pub fn nth(sheet: &Sheet, text: &str, which: u32) -> usize {
    let mut count = 0u32;
    let to = sheet.pieces.len();
    for number in 0..to {
        if sheet.is(number, text) {
            if count == which {
                return number;
            }
            count = count.saturating_add(1);
        }
    }
    to
}

/// How many pieces are this text.
pub fn count_of(sheet: &Sheet, text: &str) -> usize {
    let mut count = 0usize;
    let to = sheet.pieces.len();
    for number in 0..to {
        if sheet.is(number, text) {
            count = count.saturating_add(1);
        }
    }
    count
}
