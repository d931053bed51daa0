//! Runs of digits: numbers and durations.

ghost use Rattle.std.specs.Prelude.{◌≡◌, ◌≤◌, length, is_some};
ghost use Rattle.std.specs.Str.{IsAscii};
ghost use Rattle.std.specs.Str.Parse.{AllDigits, digits_value};
ghost use Rattle.aerie_text.specs.Numerals.{digits_at, fits_number, is_duration, number_at};

use crate::bytes::{begins_with_word_byte, digit_len};
use crate::token::TokenKind;
use aerie_base::{NUMBER_LIMIT, duration_len, read_duration};

/// The most digits of a number.
const MOST_DIGITS: usize = 19;

/// The greatest number.
const GREATEST: u64 = NUMBER_LIMIT as u64;

/// The kind and the length of the token of the digits in front, all of which it takes, or `None` where they are none. A
/// duration takes the parts behind them too, as long as their units fall. Each digit is read a few times.
pub fn digits_at(bytes: &[u8]) -> Option<(TokenKind, usize)>
    ensures { result ≡ digits_at bytes.now }
{
    let len = duration_len(bytes);
    if is_duration(&bytes[..len]) {
        return Some((TokenKind::Duration, len));
    }
    number_at(bytes)
}

/// The number of the digits in front, all of which it takes, or `None` where they are none.
#[tactic(auto, using(crate::proofs::Figures::front_digits))]
fn number_at(bytes: &[u8]) -> Option<(TokenKind, usize)>
    ensures { result ≡ number_at bytes.now }
{
    let count = digit_len(bytes);
    let (digits, rest) = bytes.split_at(count);
    if begins_with_word_byte(rest) || !fits_number(digits) {
        return None;
    }
    Some((TokenKind::Number, count))
}

/// Whether the bytes are a duration.
fn is_duration(bytes: &[u8]) -> bool
    requires { IsAscii bytes.now }
    ensures { result ≡ is_duration bytes.now }
{
    read_duration(ascii_text(bytes)).is_some()
}

/// Whether the digits are few enough, and their value small enough, to be a number.
fn fits_number(digits: &[u8]) -> bool
    requires { AllDigits 10 digits.now }
    ensures { result ≡ fits_number digits.now }
{
    digits.len() <= MOST_DIGITS && decimal_value(digits) <= GREATEST
}

/// The value of digits that fit 64 bits whatever they are.
pub fn decimal_value(digits: &[u8]) -> u64
    requires digits { AllDigits 10 digits.now }
    requires short { length digits.now ≤ 19 }
    ensures { result ≡ digits_value 10 digits.now }
{
    let mut value = 0;
    for digit in digits {
        value = value * 10 + u64::from(*digit - b'0');
    }
    value
}

/// Bytes that are ASCII, as text.
fn ascii_text(bytes: &[u8]) -> &str
    requires { IsAscii bytes.now }
    ensures { result.now ≡ bytes.now }
{
    str::from_utf8(bytes).unwrap()
}
