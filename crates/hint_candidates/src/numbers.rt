//! Numbers and durations that are not written as the language wants them.

use crate::found::Proposals;
use aerie_base::OutOfMemory;
use session_sketch::{
    Sheet, begins_with_digit, digit_count, from_to, is_digits, micros_of, part, unit_of, value_of,
};

/// Adds the duration that is meant by some pieces.
fn meant_duration(
    sheet: &Sheet,
    first: usize,
    last: usize,
    found: &mut Proposals,
) -> Result<(), OutOfMemory> {
    let bytes = sheet.texts(first, last);
    let count = digit_count(bytes);
    let unit = unit_of(part(bytes, count, bytes.len())).0;
    if !unit.is_empty() {
        let digits = part(bytes, 0, count);
        return found.replace_two(from_to(sheet, first, last), digits, unit.as_bytes());
    }
    let micros = micros_of(bytes);
    if micros != 0 {
        found.replace_duration(from_to(sheet, first, last), micros)?;
    }
    Ok(())
}

/// Adds what may be meant by a number with a fraction: a duration, or one of the two whole numbers beside it.
fn fraction(
    sheet: &Sheet,
    first: usize,
    last: usize,
    found: &mut Proposals,
) -> Result<(), OutOfMemory> {
    meant_duration(sheet, first, last, found)?;
    let whole = sheet.text(first);
    let piece = from_to(sheet, first, last);
    if is_digits(whole) && is_digits(sheet.text(last)) {
        let up = value_of(whole).saturating_add(1);
        found.replace_parts(piece, &[whole])?;
        found.replace_number(piece, up)?;
    }
    Ok(())
}

/// Adds the time of day, or the duration, that some pieces between colons are.
fn clock(sheet: &Sheet, first: usize, found: &mut Proposals) -> Result<(), OutOfMemory> {
    let minutes = first.saturating_add(2);
    let seconds = first.saturating_add(4);
    if !(sheet.is(first.saturating_add(1), ":") && is_digits(sheet.text(minutes))) {
        return Ok(());
    }
    let with_seconds = sheet.is(first.saturating_add(3), ":") && is_digits(sheet.text(seconds));
    let last = if with_seconds { seconds } else { minutes };
    let more = if with_seconds {
        value_of(sheet.text(seconds))
    } else {
        0
    };
    let micros = value_of(sheet.text(first))
        .saturating_mul(3_600_000_000)
        .saturating_add(value_of(sheet.text(minutes)).saturating_mul(60_000_000))
        .saturating_add(more.saturating_mul(1_000_000));
    let piece = from_to(sheet, first, last);
    if micros == 0 {
        return found.replace(piece, "0us");
    }
    found.replace_duration(piece, micros)
}

/// The last of the pieces that are one number with commas between its thousands.
fn last_of_thousands(sheet: &Sheet, first: usize) -> usize {
    let mut last = first;
    for _ in 0..6 {
        let comma = last.saturating_add(1);
        let digits = last.saturating_add(2);
        if sheet.is(comma, ",") && sheet.text(digits).len() == 3 && is_digits(sheet.text(digits)) {
            last = digits;
        }
    }
    last
}

/// Adds a number without the commas between its thousands.
fn thousands(sheet: &Sheet, first: usize, found: &mut Proposals) -> Result<(), OutOfMemory> {
    let last = last_of_thousands(sheet, first);
    if is_digits(sheet.text(first)) && first < last {
        found.replace_digits(from_to(sheet, first, last), sheet.texts(first, last))?;
    }
    Ok(())
}

/// Adds what may be meant by a piece that begins with a digit and is neither a number nor a duration.
fn odd_number(sheet: &Sheet, found: &mut Proposals) -> Result<(), OutOfMemory> {
    let here = sheet.text(sheet.at);
    let piece = sheet.piece(sheet.at);
    meant_duration(sheet, sheet.at, sheet.at, found)?;
    if here.iter().any(|byte| *byte == b'_') {
        found.replace_digits(piece, here)?;
    }
    let count = digit_count(here);
    let power = part(here, count.saturating_add(1), here.len());
    if is_digits(power) && value_of(power) < 19 {
        let zeros = part(
            b"000000000000000000".as_slice(),
            0,
            value_of(power) as usize,
        );
        found.replace_parts(piece, &[part(here, 0, count), zeros])?;
    }
    if micros_of(here) == 0 {
        found.replace_parts(piece, &[part(here, 0, count)])?;
    }
    found.front(piece, "_")
}

/// Adds units behind a number, where a duration may be wanted.
fn with_units(sheet: &Sheet, found: &mut Proposals) -> Result<(), OutOfMemory> {
    let piece = sheet.piece(sheet.at);
    for unit in ["s", "min", "h"] {
        found.behind(piece, unit)?;
    }
    Ok(())
}

/// Adds what may be meant where a fraction is refused, at its point or in front of it.
fn fractions(sheet: &Sheet, found: &mut Proposals) -> Result<(), OutOfMemory> {
    let at = sheet.at;
    let next = begins_with_digit(sheet.text(sheet.on(1)));
    if sheet.is(at, ".") && next && begins_with_digit(sheet.text(sheet.back(1))) {
        fraction(sheet, sheet.back(1), sheet.on(1), found)?;
    } else if sheet.is(at, ".") && next {
        fraction(sheet, at, sheet.on(1), found)?;
    }
    if is_digits(sheet.text(at))
        && sheet.is(sheet.on(1), ".")
        && begins_with_digit(sheet.text(sheet.on(2)))
    {
        fraction(sheet, at, sheet.on(2), found)?;
    }
    Ok(())
}

/// Adds what may be meant where a number and its unit are refused.
fn apart(sheet: &Sheet, found: &mut Proposals) -> Result<(), OutOfMemory> {
    let at = sheet.at;
    for first in [at, sheet.back(1)] {
        let unit = first.saturating_add(1);
        if is_digits(sheet.text(first)) && unit_of(sheet.text(unit)).1 != 0 {
            let name = unit_of(sheet.text(unit)).0;
            let piece = from_to(sheet, first, unit);
            found.replace_two(piece, sheet.text(first), name.as_bytes())?;
        }
    }
    let before = sheet.back(1);
    if is_digits(sheet.text(before)) && sheet.text(at).first().copied().unwrap_or(0) >= 128 {
        let piece = from_to(sheet, before, sheet.on(1));
        found.replace_two(piece, sheet.text(before), "us".as_bytes())?;
    }
    meant_duration(sheet, before, at, found)
}

/// Adds what may be meant by the numbers and durations around a syntax error.
pub(crate) fn numbers(sheet: &Sheet, found: &mut Proposals) -> Result<(), OutOfMemory> {
    let here = sheet.text(sheet.at);
    let before = sheet.text(sheet.back(1));
    fractions(sheet, found)?;
    if is_digits(before) {
        apart(sheet, found)?;
        thousands(sheet, sheet.back(1), found)?;
        clock(sheet, sheet.back(1), found)?;
    }
    if begins_with_digit(before) && !is_digits(before) {
        meant_duration(sheet, sheet.back(1), sheet.back(1), found)?;
    }
    if is_digits(here) {
        apart(sheet, found)?;
        clock(sheet, sheet.at, found)?;
        thousands(sheet, sheet.back(2), found)?;
        with_units(sheet, found)?;
    } else if begins_with_digit(here) {
        odd_number(sheet, found)?;
    }
    Ok(())
}
