//! What a sentence names.

ghost use Rattle.std.specs.Prelude.{◌≡◌, ◌<◌, ◌≤◌, ◌+◌, length};
ghost use Rattle.std.specs.List.{list_any};
ghost use Rattle.aerie_text.specs.Sorts.{same_sort};
ghost use Rattle.explain.specs.Becauses.{about as about_by, about_line as about_line_by, across as across_by, is_letter_word as is_letter_word_by, is_among_sorts as is_listed_by, spot_line as line_of_by, of_line as of_line_by, plain as plain_by, token_behind as token_behind_by};

use crate::causes::{Because, Cause};
use crate::sorted::{SortedToken, token_at, word_of};
use crate::sources::is_letter;
use crate::spots::spot_at;
use aerie_text::Sort;

/// A cause whose sentence names nothing.
pub(crate) fn plain(cause: Cause) -> Because
    ensures { result ≡ plain_by cause }
{
    Because {
        cause,
        from: 0,
        to: 0,
        number: 0,
    }
}

/// A cause whose sentence names a number.
pub(crate) fn of_line(cause: Cause, number: usize) -> Because
    ensures { result ≡ of_line_by cause number }
{
    Because {
        cause,
        from: 0,
        to: 0,
        number,
    }
}

/// A cause whose sentence names a token.
pub(crate) fn about(token: SortedToken, cause: Cause) -> Because
    ensures { result ≡ about_by token cause }
{
    Because {
        cause,
        from: token.from,
        to: token.to,
        number: 0,
    }
}

/// A cause whose sentence names a token and a number.
pub(crate) fn about_line(token: SortedToken, cause: Cause, number: usize) -> Because
    ensures { result ≡ about_line_by token cause number }
{
    Because {
        cause,
        from: token.from,
        to: token.to,
        number,
    }
}

/// A cause whose sentence names what goes from one token to another.
pub(crate) fn across(first: SortedToken, last: SortedToken, cause: Cause) -> Because
    ensures { result ≡ across_by first last cause }
{
    Because {
        cause,
        from: first.from,
        to: last.to,
        number: 0,
    }
}

/// Whether the sort is one of these.
pub(crate) fn is_among_sorts(sorts: &[Sort], sort: Sort) -> bool
    ensures { result ≡ is_listed_by sorts.now sort }
{
    sorts.iter().any(|one| one.is(sort))
}

/// The token behind the one of this number.
pub(crate) fn token_behind(tokens: &[SortedToken], at: usize) -> SortedToken
    requires { at ≤ length tokens.now }
    ensures { result ≡ token_behind_by tokens.now at }
{
    token_at(tokens, at + 1)
}

/// Whether the token is a word.
pub(crate) fn is_letter_word(bytes: &[u8], token: SortedToken) -> bool
    ensures { result ≡ is_letter_word_by bytes.now token }
{
    match word_of(bytes, token) {
        [] => false,
        [first, ..] => is_letter(*first),
    }
}

/// The line of a byte, by its number.
pub(crate) fn spot_line(bytes: &[u8], at: usize) -> usize
    ensures { result ≡ line_of_by bytes.now at }
{
    spot_at(bytes, at).line
}
