//! The time of day of a start.

ghost use Rattle.std.specs.Prelude.{◌≡◌, ◌<◌, ◌+◌, ◌*◌, ◌/◌, ◌%◌, option_map, IfSome, IsTrue};
ghost use Rattle.std.specs.Char.{is_ascii_digit};
ghost use Rattle.std.specs.List.{list_all};
ghost use Rattle.jiff.specs.Words.{time_nanos};
ghost use Rattle.epoch_text.specs.Clocks.{are_fraction_digits, fraction_of, micros_of, micros_of_digits, seconds_at, seconds_of, without_zone};

use crate::forms::{has_form, number};
use jiff::civil::Time;

/// The bytes of a time of day without its fraction.
const WHOLE: usize = 8;

/// The most digits of a fraction.
const LONGEST: usize = 6;

/// The time of day that a text says, as `23:59:59`, with a fraction or without, and perhaps `Z` at its end.
#[tactic(auto, using(crate::proofs::Digits::too_short))]
pub(crate) fn time_of(text: &[u8]) -> Option<Time>
    ensures value { option_map (λ time. time_nanos time / 1_000) result ≡ micros_of text.now }
    ensures whole { IfSome result (λ time. time_nanos time % 1_000 ≡ 0) }
{
    if text.len() < WHOLE {
        return None;
    }
    let micros = fraction_of(without_zone(&text[WHOLE..]))?;
    time_with_fraction(&text[..WHOLE], micros)
}

/// The time of day that a text says, as `23:59:59`, and so many microseconds.
fn time_with_fraction(text: &[u8], micros: u32) -> Option<Time>
    requires { micros < 1_000_000 }
    ensures value { option_map (λ time. time_nanos time / 1_000) result
        ≡ option_map (λ seconds. seconds * 1_000_000 + micros) (seconds_of text.now) }
    ensures whole { IfSome result (λ time. time_nanos time % 1_000 ≡ 0) }
{
    if !has_form(text, b"00:00:00") {
        return None;
    }
    time_at(
        number(&text[..2]),
        number(&text[3..5]),
        number(&text[6..8]),
        micros,
    )
}

/// The time of day at this hour, minute, second and fraction.
fn time_at(hour: u32, minute: u32, second: u32, micros: u32) -> Option<Time>
    requires hour { hour < 100 }
    requires minute { minute < 100 }
    requires second { second < 100 }
    requires micros { micros < 1_000_000 }
    ensures value { option_map (λ time. time_nanos time / 1_000) result
        ≡ option_map (λ seconds. seconds * 1_000_000 + micros) (seconds_at hour minute second) }
    ensures whole { IfSome result (λ time. time_nanos time % 1_000 ≡ 0) }
{
    let nanos = micros * 1_000;
    Time::new(hour as i8, minute as i8, second as i8, nanos as i32).ok()
}

/// The end of a start without the `Z` that may stand there.
fn without_zone(end: &[u8]) -> &[u8]
    ensures { result.now ≡ without_zone end.now }
{
    match end {
        [front @ .., b'Z'] => front,
        _ => end,
    }
}

/// The microseconds of a fraction as `.5`, or of none.
fn fraction_of(text: &[u8]) -> Option<u32>
    ensures value { result ≡ fraction_of text.now }
    ensures bound { IfSome result (λ micros. micros < 1_000_000) }
{
    match text {
        [] => Some(0),
        [b'.', digits @ ..] if are_fraction_digits(digits) => Some(micros_of_digits(digits)),
        _ => None,
    }
}

/// Whether these are the digits of a fraction: 1 to 6 of them.
fn are_fraction_digits(text: &[u8]) -> bool
    ensures { result ≡ are_fraction_digits text.now }
{
    1 <= text.len() && text.len() <= LONGEST && are_digits(text)
}

/// Whether each byte is a digit.
fn are_digits(text: &[u8]) -> bool
    ensures { result ≡ list_all is_ascii_digit text.now }
{
    text.iter().all(|byte| byte.is_ascii_digit())
}

/// The microseconds that the digits of a fraction write. Those that are left out are zeros.
#[tactic(auto, using(crate::proofs::Digits::filled_digits))]
fn micros_of_digits(digits: &[u8]) -> u32
    requires { IsTrue (are_fraction_digits digits.now) }
    ensures value { result ≡ micros_of_digits digits.now }
    ensures bound { result < 1_000_000 }
{
    let mut filled = *b"000000";
    filled[..digits.len()].copy_from_slice(digits);
    number(&filled)
}
