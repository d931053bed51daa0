//! The text of a duration.

ghost use Rattle.std.specs.Prelude.{◌≡◌, ◌≤◌, ◌+◌, ◌*◌, ℕ, nat_eq, Some, IsTrue, IfOk, length, string_bytes, take};
ghost use Rattle.std.specs.Char.{is_ascii_digit};
ghost use Rattle.std.specs.List.{list_all, starts_with};
ghost use Rattle.std.specs.Str.Parse.{digits_value};
ghost use Rattle.aerie_base.specs.Ranges.{time_of};
ghost use Rattle.aerie_base.specs.Durations.{begins_part, begins_unit, digit_count, duration_len, duration_of, duration_text, parts_len, parts_micros, unit_micros, unit_text};

use crate::memory::OutOfMemory;
use crate::numbers::Time;
use crate::ranges::TIME_LIMIT;
use std::alloc::Global;

/// The longest duration, in microseconds.
const LONGEST: u64 = TIME_LIMIT as u64;

/// A unit of time.
#[derive(Clone, Copy)]
enum Unit {
    Day,
    Hour,
    Minute,
    Second,
    Millisecond,
    Microsecond,
}

/// The units, each less than the one before.
const UNITS: [Unit; 6] = [
    Unit::Day,
    Unit::Hour,
    Unit::Minute,
    Unit::Second,
    Unit::Millisecond,
    Unit::Microsecond,
];

/// Reads a duration: one or more parts, each of one or more digits and at once a unit, `d`, `h`, `min`, `s`, `ms` or `us`,
/// and the units fall. Nothing stands before, between or behind them. `None` for any other text, and where the sum is
/// above 10^15 microseconds. It takes no memory, and time linear in the text.
#[tactic(auto, using(crate::proofs::Digits::all_parts))]
pub fn read_duration(text: &str) -> Option<Time>
    ensures { result ≡ duration_of text.now }
{
    let bytes = text.as_bytes();
    let (len, micros) = parts_in_front(&UNITS, bytes);
    if len == 0 || len < bytes.len() {
        return None;
    }
    micros
}

/// Writes a duration as microseconds: the digits, and `us`. `read_duration` reads the same time from it.
#[tactic(auto, using(crate::proofs::Digits::written_is_read))]
pub fn write_duration(alloc: Global, time: Time) -> Result<String, OutOfMemory>
    ensures text { IfOk result (λ text. string_bytes text ≡ duration_text time) }
    ensures read_back { duration_of (duration_text time) ≡ Some time }
{
    let text = format!(in alloc; "{}us", time.get())?;
    Ok(text)
}

/// How many bytes in front are parts of a duration, as many as there are with units that fall: 0 where there is none.
#[tactic(auto, using(crate::proofs::Digits::no_parts))]
pub fn duration_len(bytes: &[u8]) -> usize
    ensures len { result ≡ duration_len bytes.now }
    ensures within { result ≤ length bytes.now }
{
    if !begins_unit(&bytes[digit_count(bytes)..]) {
        return 0;
    }
    let (len, _) = parts_in_front(&UNITS, bytes);
    len
}

/// Whether a letter with which a unit begins stands in front. Most numerals are plain numbers, behind which there is none: their length as
/// a duration is known at once.
fn begins_unit(bytes: &[u8]) -> bool
    ensures { result ≡ begins_unit bytes.now }
{
    match bytes.first() {
        Some(byte) => matches!(*byte, b'd' | b'h' | b'm' | b's' | b'u'),
        None => false,
    }
}

/// How long the parts in front are, of each of these units one or none, and what they come to in microseconds, or `None`
/// above the longest duration. Each digit is read at most twice.
fn parts_in_front(units: &[Unit], bytes: &[u8]) -> (usize, Option<Time>)
    ensures len { result.0 ≡ parts_len units.now bytes.now }
    ensures within { result.0 ≤ length bytes.now }
    ensures micros { result.1 ≡ time_of (parts_micros units.now bytes.now) }
{
    let mut len = 0;
    let mut micros = Some(Time::zero());
    let mut count = digit_count(bytes);
    for unit in units {
        let rest = &bytes[len..];
        if begins_part(*unit, count, rest) {
            micros = sum_within_range(micros, part_micros(*unit, count, rest));
            len += count + unit_text(*unit).len();
            count = digit_count(&bytes[len..]);
        }
    }
    (len, micros)
}

/// Whether a part of this unit stands in front, with so many digits.
#[tactic(auto, using(crate::proofs::Digits::digit_count_within))]
fn begins_part(unit: Unit, count: usize, bytes: &[u8]) -> bool
    requires { count ≡ digit_count bytes.now }
    ensures { result ≡ begins_part unit bytes.now }
{
    0 < count && stands_in_front(unit, &bytes[count..])
}

/// Whether this unit stands in front. Most texts differ in their first letter, so only where it agrees are the letters behind it compared.
fn stands_in_front(unit: Unit, bytes: &[u8]) -> bool
    ensures { result ≡ starts_with nat_eq bytes.now (unit_text unit) }
{
    match bytes.first() {
        Some(letter) => match unit {
            Unit::Day => *letter == b'd',
            Unit::Hour => *letter == b'h',
            Unit::Minute => *letter == b'm' && bytes[1..].starts_with("in".as_bytes()),
            Unit::Second => *letter == b's',
            Unit::Millisecond => *letter == b'm' && bytes[1..].starts_with("s".as_bytes()),
            Unit::Microsecond => *letter == b'u' && bytes[1..].starts_with("s".as_bytes()),
        },
        None => false,
    }
}

/// What so many digits in front come to in microseconds, in this unit, or `None` above the longest duration.
#[tactic(auto, using(crate::proofs::Digits::digit_count_within, crate::proofs::Digits::digits_in_front))]
fn part_micros(unit: Unit, count: usize, bytes: &[u8]) -> Option<Time>
    requires { count ≡ digit_count bytes.now }
    ensures { result ≡ time_of (digits_value 10 (take count bytes.now) * unit_micros unit) }
{
    let number = number_within_range(&bytes[..count])?;
    let product = number.checked_mul(unit_micros(unit))?;
    within_range(product)
}

/// The sum of two durations, or `None` where it is above the longest, as where one of the two is.
fn sum_within_range(micros: Option<Time>, more: Option<Time>) -> Option<Time>
    ensures { (a b : ℕ) → micros ≡ time_of a → more ≡ time_of b → result ≡ time_of (a + b) }
{
    within_range(micros?.get() as u64 + more?.get() as u64)
}

/// So many microseconds, or `None` above the longest duration.
fn within_range(micros: u64) -> Option<Time>
    ensures { result ≡ time_of micros }
{
    if LONGEST < micros {
        return None;
    }
    Time::new(micros as i64)
}

/// How many digits stand in front.
fn digit_count(bytes: &[u8]) -> usize
    ensures len { result ≡ digit_count bytes.now }
    ensures within { result ≤ length bytes.now }
{
    bytes
        .iter()
        .take_while(|byte| byte.is_ascii_digit())
        .count()
}

/// How a unit is written.
fn unit_text(unit: Unit) -> &'static str
    ensures { result.now ≡ unit_text unit }
{
    match unit {
        Unit::Day => "d",
        Unit::Hour => "h",
        Unit::Minute => "min",
        Unit::Second => "s",
        Unit::Millisecond => "ms",
        Unit::Microsecond => "us",
    }
}

/// The microseconds of a unit.
fn unit_micros(unit: Unit) -> u64
    ensures { result ≡ unit_micros unit }
{
    match unit {
        Unit::Day => 86_400_000_000,
        Unit::Hour => 3_600_000_000,
        Unit::Minute => 60_000_000,
        Unit::Second => 1_000_000,
        Unit::Millisecond => 1_000,
        Unit::Microsecond => 1,
    }
}

/// The number that the digits write, or `None` above the longest duration. There may be any number of digits, so it
/// ends at the first that leads above.
#[tactic(auto, using(crate::specs::DigitValues::value_more))]
fn number_within_range(digits: &[u8]) -> Option<u64>
    requires { IsTrue (list_all is_ascii_digit digits.now) }
    ensures { result ≡ time_of (digits_value 10 digits.now) }
{
    let mut number = 0;
    for digit in digits {
        number = number * 10 + u64::from(*digit - b'0');
        if LONGEST < number {
            return None;
        }
    }
    Some(number)
}
