//! Starts and instants that are none.

use crate::found::Proposals;
use aerie_base::OutOfMemory;
use session_sketch::{Piece, Sheet, StartFields, is_word, part, start_fields_of};
use std::alloc::Global;

/// Adds an instant of these numbers.
fn instant(
    alloc: Global,
    piece: Piece,
    all: StartFields,
    month: u64,
    day: u64,
    found: &mut Proposals,
) -> Result<(), OutOfMemory> {
    let year = all.year.value;
    let hour = all.hour.value.min(23);
    let minute = all.minute.value.min(59);
    let second = all.second.value.min(59);
    let text = format!(in alloc;
        "\"{year:04}-{month:02}-{day:02}T{hour:02}:{minute:02}:{second:02}Z\""
    )?;
    found.replace(piece, text.as_str())
}

/// Adds an instant by the day of the year.
fn by_day_of_year(
    alloc: Global,
    piece: Piece,
    all: StartFields,
    found: &mut Proposals,
) -> Result<(), OutOfMemory> {
    let year = all.year.value;
    let day = all.month.value.min(365);
    let hour = all.day.value.min(23);
    let minute = all.hour.value.min(59);
    let second = all.minute.value.min(59);
    let text = format!(in alloc; "\"{year:04}-{day:03}T{hour:02}:{minute:02}:{second:02}Z\"")?;
    found.replace(piece, text.as_str())
}

/// The last day of a month, of February in most years.
fn last_day(month: u64) -> u64 {
    match month {
        2 => 28,
        4 | 6 | 9 | 11 => 30,
        _ => 31,
    }
}

/// Adds the instants that may be meant by a text.
fn instants(
    alloc: Global,
    piece: Piece,
    bytes: &[u8],
    found: &mut Proposals,
) -> Result<(), OutOfMemory> {
    let mut all = start_fields_of(bytes);
    if all.month.digits == 3 {
        return by_day_of_year(alloc, piece, all, found);
    }
    if all.year.digits < 4 && all.day.digits == 4 {
        let first = all.year;
        all.year = all.day;
        all.day = first;
    }
    let month = all.month.value.max(1);
    let day = all.day.value.max(1);
    instant(alloc, piece, all, month, day, found)?;
    if 12 < month {
        instant(alloc, piece, all, day, month, found)?;
    }
    let month = month.min(12);
    instant(alloc, piece, all, month, day.min(last_day(month)), found)
}

/// Adds what may be meant by the text at the piece, which is no instant.
pub(crate) fn no_start(
    alloc: Global,
    sheet: &Sheet,
    found: &mut Proposals,
) -> Result<(), OutOfMemory> {
    instants(alloc, sheet.piece(sheet.at), sheet.text(sheet.at), found)
}

/// Whether a byte ends a text that lacks its quotation marks.
fn is_end(byte: u8) -> bool {
    matches!(byte, b';' | b'\n' | b'"' | b'\'' | b')')
}

/// The offset of the first byte from one on that ends such a text.
fn end_from(bytes: &[u8], from: usize) -> usize {
    for at in from..bytes.len() {
        if is_end(bytes[at]) {
            return at;
        }
    }
    bytes.len()
}

/// Adds that a text gets its quotation marks: an instant without them, one in others, or one that does not end.
pub(crate) fn unquoted(
    alloc: Global,
    sheet: &Sheet,
    found: &mut Proposals,
) -> Result<(), OutOfMemory> {
    let from = sheet.piece(sheet.at).from;
    let is_asked = sheet.is_one_of(sheet.back(1), &["start", "at"]);
    let is_quote = sheet.is_one_of(sheet.at, &["'", "\"", "“", "‘", "`"]);
    let here = sheet.text(sheet.at);
    let is_open = here.starts_with("\"".as_bytes());
    if !(is_asked || is_quote || is_open) {
        return Ok(());
    }
    let begin = if is_quote || is_open {
        sheet.piece(sheet.at).from.saturating_add(1)
    } else {
        from
    };
    let end = end_from(sheet.bytes, begin);
    let close = sheet.bytes.get(end).copied().unwrap_or(b';');
    let to = if close == b'\'' || close == b'"' {
        end.saturating_add(1)
    } else {
        end
    };
    let inner = part(sheet.bytes, begin, end);
    found.put_parts(from, to, &["\"".as_bytes(), inner, "\"".as_bytes()])?;
    let to_blank = word_end(sheet.bytes, begin);
    let word = part(sheet.bytes, begin, to_blank);
    found.put_parts(from, to_blank, &["\"".as_bytes(), word, "\"".as_bytes()])?;
    if is_word(inner) {
        found.put_parts(from, to, &[inner])?;
    }
    instants(alloc, Piece { from, to }, inner, found)
}

/// The offset of the first blank from one on.
fn word_end(bytes: &[u8], from: usize) -> usize {
    for at in from..bytes.len() {
        if matches!(bytes[at], b' ' | b'\t' | b'\n' | b';') {
            return at;
        }
    }
    bytes.len()
}
