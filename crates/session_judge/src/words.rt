//! The token that stands at a place.

ghost use Rattle.std.specs.Prelude.{◌≡◌, ◌<◌, All, IfOk, length};
ghost use Rattle.std.specs.Str.{IsCharBoundary};
ghost use Rattle.aerie_text.specs.Cut.{IsTokenOf};
ghost use Rattle.aerie_text.specs.Marks.{slice_of};
ghost use Rattle.aerie_text.specs.Places.{place_of as place_of_by};
ghost use Rattle.session_judge.specs.Telling.{are_equal_places, word_standing_at as word_standing_at_by};

use aerie_base::{OutOfMemory, Place, Text};
use aerie_text::{Token, place_of, place_on};
use std::alloc::Global;

/// Whether two places are the same.
fn are_equal_places(one: Place, other: Place) -> bool
    ensures { result ≡ are_equal_places one other }
{
    one.line == other.line && one.column == other.column
}

/// The place of a token, from that of another byte: only what stands between them is read, where that one comes first.
fn place_from(text: &str, from: usize, token: Token, place: Place) -> Place
    requires short { length text.now < 4_294_967_295 }
    requires begins { IsCharBoundary text.now from }
    requires token { IsTokenOf text.now token }
    requires place { place ≡ place_of_by text.now from }
    ensures place { result ≡ place_of_by text.now token.from }
    ensures edge { IsCharBoundary text.now token.from }
{
    if from <= token.from {
        place_on(text, from, token.from, place)
    } else {
        place_of(text, token.from)
    }
}

/// The text of a token.
fn text_of(alloc: Global, text: &str, token: Token) -> Result<Text, OutOfMemory>
    requires { IsTokenOf text.now token }
    ensures { IfOk result (λ word. word ≡ slice_of text.now token.from token.to) }
{
    Text::new(alloc, &text[token.from..token.to])
}

/// The text of the token that stands at a place, or nothing where none does. It takes time linear in the text.
pub(crate) fn word_standing_at(
    alloc: Global,
    text: &str,
    place: Place,
    tokens: &[Token],
) -> Result<Text, OutOfMemory>
    requires short { length text.now < 4_294_967_295 }
    requires tokens { All (IsTokenOf text.now) tokens.now }
    ensures { IfOk result (λ word. word ≡ word_standing_at_by text.now place tokens.now) }
{
    let mut from = 0;
    let mut at = Place { line: 1, column: 1 };
    for token in tokens {
        at = place_from(text, from, *token, at);
        from = token.from;
        if are_equal_places(at, place) {
            return text_of(alloc, text, *token);
        }
    }
    Text::new(alloc, "")
}
