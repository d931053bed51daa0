//! A text cut into pieces, whether it can be cut into tokens or not.

use aerie_base::{List, OutOfMemory};
use std::alloc::Global;

/// A piece of a text: a word with its digits, a text in quotation marks or backquotes, a symbol, or one other character.
#[derive(Clone, Copy)]
pub struct Piece {
    /// The offset of its first byte.
    pub from: usize,
    /// The offset behind its last byte.
    pub to: usize,
}

/// What stands where the text is cut.
#[derive(Clone, Copy, PartialEq, Eq)]
enum Inside {
    Gap,
    Word,
    Quoted,
    Raw,
    Comment,
    Symbol,
}

/// Whether the byte is one of a word or of a number.
pub fn is_word_byte(byte: u8) -> bool {
    byte.is_ascii_alphanumeric() || byte == b'_'
}

/// Whether two bytes are one symbol.
fn is_double(one: u8, other: u8) -> bool {
    match one {
        b':' | b'+' | b'!' | b'<' | b'>' | b'=' => other == b'=',
        b'&' => other == b'&',
        b'|' => other == b'|',
        b'-' => other == b'>',
        _ => false,
    }
}

/// What begins at a byte, behind which another one stands.
fn begins(byte: u8, next: u8) -> Inside {
    match byte {
        b' ' | b'\t' | b'\n' | b'\r' => Inside::Gap,
        b'"' => Inside::Quoted,
        b'`' => Inside::Raw,
        b'/' if next == b'/' => Inside::Comment,
        _ if is_word_byte(byte) => Inside::Word,
        _ => Inside::Symbol,
    }
}

/// Whether what stands inside goes on with a byte, in front of which another one stands.
fn goes_on(inside: Inside, before: u8, byte: u8, len: usize) -> bool {
    match inside {
        Inside::Gap => false,
        Inside::Word => is_word_byte(byte),
        Inside::Quoted => byte != b'\n' && (len == 1 || before != b'"'),
        Inside::Raw => len == 1 || before != b'`',
        Inside::Comment => byte != b'\n',
        Inside::Symbol => 128 <= before && (128..192).contains(&byte)
            || len == 1 && is_double(before, byte),
    }
}

/// The pieces so far, and what stands where the text is cut.
#[derive(Drop)]
struct Cutter {
    pieces: List<Piece>,
    inside: Inside,
    from: usize,
    before: u8,
}

impl Cutter {
    /// Ends the piece at the offset.
    fn end(&mut self, at: usize) -> Result<(), OutOfMemory> {
        match self.inside {
            Inside::Gap | Inside::Comment => Ok(()),
            _ => self.pieces.push(Piece {
                from: self.from,
                to: at,
            }),
        }
    }

    /// Takes a byte at its offset, behind which another one stands.
    fn take(&mut self, at: usize, byte: u8, next: u8) -> Result<(), OutOfMemory> {
        let len = at.saturating_sub(self.from);
        if !goes_on(self.inside, self.before, byte, len) {
            self.end(at)?;
            self.inside = begins(byte, next);
            self.from = at;
        }
        self.before = byte;
        Ok(())
    }
}

/// The pieces of a text, in order, behind four pieces of nothing at its beginning. It takes time linear in the text.
pub fn pieces_of(alloc: Global, bytes: &[u8]) -> Result<List<Piece>, OutOfMemory> {
    let mut cutter = Cutter {
        pieces: List::new(alloc),
        inside: Inside::Gap,
        from: 0,
        before: b' ',
    };
    for _ in 0..4 {
        cutter.pieces.push(Piece { from: 0, to: 0 })?;
    }
    for at in 0..bytes.len() {
        let next = bytes.get(at + 1).copied().unwrap_or(b' ');
        cutter.take(at, bytes[at], next)?;
    }
    cutter.end(bytes.len())?;
    Ok(cutter.pieces)
}
