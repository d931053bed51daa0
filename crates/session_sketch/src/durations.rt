//! Numbers and durations, also those that are not written as the language wants them.

use crate::near::is_same_word;
use crate::sheet::part;
use aerie_base::OutOfMemory;
use std::alloc::{AllocError, Global};

/// What units are called, each with its name in the language and its microseconds.
const UNITS: [(&str, &str, u64); 29] = [
    ("us", "us", 1),
    ("usec", "us", 1),
    ("micros", "us", 1),
    ("microseconds", "us", 1),
    ("ms", "ms", 1_000),
    ("msec", "ms", 1_000),
    ("millis", "ms", 1_000),
    ("milliseconds", "ms", 1_000),
    ("s", "s", 1_000_000),
    ("sec", "s", 1_000_000),
    ("secs", "s", 1_000_000),
    ("second", "s", 1_000_000),
    ("seconds", "s", 1_000_000),
    ("m", "min", 60_000_000),
    ("mn", "min", 60_000_000),
    ("min", "min", 60_000_000),
    ("mins", "min", 60_000_000),
    ("minute", "min", 60_000_000),
    ("minutes", "min", 60_000_000),
    ("h", "h", 3_600_000_000),
    ("hr", "h", 3_600_000_000),
    ("hrs", "h", 3_600_000_000),
    ("hour", "h", 3_600_000_000),
    ("hours", "h", 3_600_000_000),
    ("d", "d", 86_400_000_000),
    ("day", "d", 86_400_000_000),
    ("days", "d", 86_400_000_000),
    ("w", "d", 604_800_000_000),
    ("weeks", "d", 604_800_000_000),
];

/// The units in which a duration is written.
const WRITTEN: [(&str, u64); 5] = [
    ("h", 3_600_000_000),
    ("min", 60_000_000),
    ("s", 1_000_000),
    ("ms", 1_000),
    ("us", 1),
];

/// The name of a unit in the language, and its microseconds, or 0 where it is none.
pub fn unit_of(word: &[u8]) -> (&'static str, u64) {
    for unit in UNITS {
        if is_same_word(word, unit.0.as_bytes()) {
            return (unit.1, unit.2);
        }
    }
    ("", 0)
}

/// The value of a digit.
fn digit_of(byte: u8) -> u64 {
    u64::from(byte.saturating_sub(b'0'))
}

/// The value of digits, or as much as can be.
pub fn value_of(digits: &[u8]) -> u64 {
    let mut value = 0u64;
    for digit in digits {
        if digit.is_ascii_digit() {
            value = value.saturating_mul(10).saturating_add(digit_of(*digit));
        }
    }
    value
}

/// How many digits stand in front.
pub fn digit_count(bytes: &[u8]) -> usize {
    let mut count = 0;
    for at in 0..bytes.len() {
        if !bytes[at].is_ascii_digit() {
            return count;
        }
        count = at + 1;
    }
    count
}

/// A part of a duration that is read: digits, digits of a fraction, and a unit.
#[derive(Clone, Copy)]
struct Amount {
    whole: u64,
    fraction: u64,
    scale: u64,
    is_fraction: bool,
    unit_from: usize,
    unit_to: usize,
}

impl Amount {
    /// A part that begins at the offset.
    fn new() -> Amount {
        Amount {
            whole: 0,
            fraction: 0,
            scale: 1,
            is_fraction: false,
            unit_from: 0,
            unit_to: 0,
        }
    }

    /// Whether its unit has begun.
    fn has_unit(&self) -> bool {
        self.unit_from < self.unit_to
    }

    /// With one byte more, at an offset.
    fn with(self, at: usize, byte: u8) -> Amount {
        let mut more = self;
        if byte == b'.' {
            more.is_fraction = true;
        } else if byte.is_ascii_digit() && self.is_fraction {
            if self.scale < 1_000_000 {
                more.fraction = self
                    .fraction
                    .saturating_mul(10)
                    .saturating_add(digit_of(byte));
                more.scale = self.scale.saturating_mul(10);
            }
        } else if byte.is_ascii_digit() {
            more.whole = self.whole.saturating_mul(10).saturating_add(digit_of(byte));
        } else {
            if !self.has_unit() {
                more.unit_from = at;
            }
            more.unit_to = at.saturating_add(1);
        }
        more
    }

    /// Its microseconds, or 0 where its unit is none.
    fn micros(&self, bytes: &[u8]) -> u64 {
        let unit = unit_of(part(bytes, self.unit_from, self.unit_to)).1;
        let whole = self.whole.saturating_mul(unit);
        if self.scale == 0 {
            return whole;
        }
        whole.saturating_add(self.fraction.saturating_mul(unit) / self.scale)
    }
}

/// The microseconds of what is meant as a duration, or 0 where it is none.
pub fn micros_of(bytes: &[u8]) -> u64 {
    let mut total = 0u64;
    let mut amount = Amount::new();
    for at in 0..bytes.len() {
        let byte = bytes[at];
        let is_letter = byte.is_ascii_alphabetic();
        if amount.has_unit() && !is_letter {
            let micros = amount.micros(bytes);
            if micros == 0 {
                return 0;
            }
            total = total.saturating_add(micros);
            amount = Amount::new();
        }
        amount = amount.with(at, byte);
    }
    let micros = amount.micros(bytes);
    if micros == 0 {
        return 0;
    }
    total.saturating_add(micros)
}

/// A duration as it is written: hours, minutes and so on, without those of which there are none.
pub fn duration_text(alloc: Global, micros: u64) -> Result<String, OutOfMemory> {
    let mut text = String::new(alloc);
    let mut left = micros;
    for unit in WRITTEN {
        if unit.1 != 0 && unit.1 <= left {
            let count = left / unit.1;
            left %= unit.1;
            let name = unit.0;
            text.push_str(format!(in alloc; "{count}{name}")?.as_str())?;
        }
    }
    Ok(text)
}

/// The digits among bytes.
pub fn digits_in(alloc: Global, bytes: &[u8]) -> Result<Vec<u8>, AllocError> {
    let mut digits = Vec::new(alloc);
    for byte in bytes {
        if byte.is_ascii_digit() {
            digits.push(*byte)?;
        }
    }
    Ok(digits)
}
