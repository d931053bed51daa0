//! The token that begins at a place.

ghost use Rattle.std.specs.Prelude.{◌≡◌};
ghost use Rattle.aerie_text.specs.TokenAt.{of_kind, token_at, word_len};

use crate::bytes;
use crate::numerals::digits_at;
use crate::quotes::{quoted_len, raw_len};
use crate::symbols::symbol_len;
use crate::token::TokenKind;

/// The longest word, in bytes.
const LONGEST_WORD: usize = 64;

/// The kind and the length of the token in front, the longest that matches, or `None` where none begins there.
#[tactic(auto, unfolding(crate::specs::TokenAt::token_at))]
pub fn token_at(bytes: &[u8]) -> Option<(TokenKind, usize)>
    ensures { result ≡ token_at bytes.now }
{
    let (first, rest) = bytes.split_first()?;
    if bytes::is_letter(*first) {
        of_kind(TokenKind::Word, word_len(bytes))
    } else if first.is_ascii_digit() {
        digits_at(bytes)
    } else if *first == b'"' {
        of_kind(TokenKind::Quoted, quoted_len(rest))
    } else if *first == b'`' {
        of_kind(TokenKind::Raw, raw_len(rest))
    } else {
        of_kind(TokenKind::Symbol, symbol_len(bytes))
    }
}

/// How long the word in front is, or `None` where it is too long.
fn word_len(bytes: &[u8]) -> Option<usize>
    ensures { result ≡ word_len bytes.now }
{
    let count = bytes::word_len(bytes);
    if count <= LONGEST_WORD {
        Some(count)
    } else {
        None
    }
}

/// A token of this kind, where there is one of such a length.
fn of_kind(kind: TokenKind, len: Option<usize>) -> Option<(TokenKind, usize)>
    ensures { result ≡ of_kind kind len }
{
    len.map(|len| (kind, len))
}
