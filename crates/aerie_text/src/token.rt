/// What a token is.
#[derive(Clone, Copy, Debug, PartialEq, Eq)]
pub enum TokenKind {
    /// A letter or `_`, then letters, digits and `_`, at most 64 bytes in all.
    Word,
    /// 1 to 19 digits of a value of at most 10^18.
    Number,
    /// Parts of digits and at once a unit of time, whose units fall, at most 10^15 microseconds in all.
    Duration,
    /// Characters of one line between quotation marks.
    Quoted,
    /// Any characters between backquotes.
    Raw,
    /// A mark of one or two characters.
    Symbol,
}

/// A token: the bytes of the text from one place up to another.
#[derive(Clone, Copy, Debug, PartialEq, Eq)]
pub struct Token {
    pub kind: TokenKind,
    /// The place of its first byte, counted in bytes from 0.
    pub from: usize,
    /// The place behind its last byte.
    pub to: usize,
}
