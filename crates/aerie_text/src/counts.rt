//! What tokens count.

ghost use Rattle.std.specs.Prelude.{◌≡◌, ◌≤◌, length, pos};
ghost use Rattle.std.specs.Str.Parse.{AllDigits, digits_value};
ghost use Rattle.aerie_base.specs.Durations.{duration_of};
ghost use Rattle.aerie_text.specs.Marks.{count_of, or_nothing};
ghost use Rattle.aerie_text.specs.TokenTexts.{IsTextOf};

use crate::numerals::decimal_value;
use crate::token::TokenKind;
use aerie_base::{Number, read_duration};

/// What a token of this kind and this text counts: a number its value, a duration its microseconds, other tokens 0.
#[tactic(auto, using(crate::proofs::Marking::all_digits))]
pub fn count_of(kind: TokenKind, text: &str) -> Number
    requires { IsTextOf kind text.now }
    ensures { result ≡ pos (count_of kind text.now) }
{
    match kind {
        TokenKind::Number => number_of_digits(text),
        TokenKind::Duration => micros(text),
        _ => counted(0),
    }
}

/// The number that digits write.
fn number_of_digits(text: &str) -> Number
    requires digits { AllDigits 10 text.now }
    requires short { length text.now ≤ 19 }
    requires range { digits_value 10 text.now ≤ 1_000_000_000_000_000_000 }
    ensures { result ≡ pos (digits_value 10 text.now) }
{
    counted(decimal_value(text.as_bytes()))
}

/// The microseconds of a duration.
fn micros(text: &str) -> Number
    ensures { result ≡ pos (or_nothing (duration_of text.now)) }
{
    match read_duration(text) {
        Some(time) => counted(time.get() as u64),
        None => counted(0),
    }
}

/// So many, as a number.
fn counted(count: u64) -> Number
    requires { count ≤ 1_000_000_000_000_000_000 }
    ensures { result ≡ pos count }
{
    Number::new(count as i64).unwrap()
}
