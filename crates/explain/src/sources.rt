//! The line of a text at a spot, with a mark under what stands there.

ghost use Rattle.std.specs.Prelude.{◌≡◌, ◌++◌, ◌<◌, ◌≤◌, IfOk, OnOk, length, replicate, string_bytes};
ghost use Rattle.std.specs.Fmt.{decimal};
ghost use Rattle.std.specs.List.{prefix_len};
ghost use Rattle.aerie_text.specs.Bytes.{is_letter, is_word_byte};
ghost use Rattle.aerie_text.specs.Quotes.{is_quotable};
ghost use Rattle.aerie_text.specs.Symbols.{begins_double_symbol};
ghost use Rattle.explain.specs.Sources.{back_dots, front_dots, indent, left_out, line_part, mark_line, marked_columns, marked_line, numbered_line, quoted_columns, source as source_by, token_columns};

use crate::lines::{behind_lines, line_in_front};
use crate::shown::{beginnings, push_shown};
use crate::sorted::part_of;
use crate::spots::{Spot, rest_at};
use aerie_base::OutOfMemory;
use std::alloc::Global;

/// The most columns of a line that are shown.
const MOST_COLUMNS: usize = 100;

/// The most of them before the spot, where the line is cut.
const MOST_BEFORE: usize = 60;

/// Whether a word may begin with the byte.
pub(crate) fn is_letter(byte: u8) -> bool
    ensures { result ≡ is_letter byte }
{
    byte.is_ascii_alphabetic() || byte == b'_'
}

/// Whether a word may go on with the byte.
fn is_word_byte(byte: u8) -> bool
    ensures { result ≡ is_word_byte byte }
{
    is_letter(byte) || byte.is_ascii_digit()
}

/// How many letters, digits and `_` stand in front.
pub(crate) fn word_len(bytes: &[u8]) -> usize
    ensures len { result ≡ prefix_len is_word_byte bytes.now }
    ensures within { result ≤ length bytes.now }
{
    bytes.iter().take_while(|byte| is_word_byte(**byte)).count()
}

/// How many bytes stand before a quotation mark or the end of the line.
fn quotable_len(bytes: &[u8]) -> usize
    ensures { result ≡ prefix_len is_quotable bytes.now }
{
    bytes
        .iter()
        .take_while(|byte| **byte != b'"' && **byte != b'\n')
        .count()
}

/// Whether a symbol of two characters stands in front.
fn begins_double_symbol(bytes: &[u8]) -> bool
    ensures { result ≡ begins_double_symbol bytes.now }
{
    match bytes {
        [b':' | b'+' | b'=' | b'!' | b'<' | b'>', b'=', ..] => true,
        [b'&', b'&', ..] | [b'|', b'|', ..] | [b'-', b'>', ..] => true,
        _ => false,
    }
}

/// How many columns a text in quotation marks takes, behind the first of which the line goes on so.
fn quoted_columns(rest: &[u8]) -> usize
    ensures { result ≡ quoted_columns rest.now }
{
    quotable_len(rest).saturating_add(2).min(rest.len() + 1)
}

/// How many columns the token takes with which a line goes on.
fn token_columns(rest: &[u8]) -> usize
    ensures { result ≡ token_columns rest.now }
{
    match rest.split_first() {
        None => 1,
        Some((first, more)) => {
            if is_word_byte(*first) {
                word_len(rest)
            } else if *first == b'"' {
                quoted_columns(more)
            } else if begins_double_symbol(rest) {
                2
            } else {
                1
            }
        }
    }
}

/// How many of them are marked: no more than are shown.
fn marked_columns(rest: &[u8]) -> usize
    ensures { result ≡ marked_columns rest.now }
{
    token_columns(rest).min(MOST_COLUMNS - MOST_BEFORE)
}

/// How many characters of a line are left out in front.
fn left_out(column: usize, count: usize) -> usize
    ensures { result ≡ left_out column count }
{
    if count <= MOST_COLUMNS {
        0
    } else {
        column.saturating_sub(1).saturating_sub(MOST_BEFORE)
    }
}

/// The dots in front of a line of which so many characters are left out.
fn front_dots(from: usize) -> &'static str
    ensures { result.now ≡ front_dots from }
{
    if from == 0 { "" } else { ".." }
}

/// The dots behind a line of which so many characters are left.
fn back_dots(left: usize) -> &'static str
    ensures { result.now ≡ back_dots left }
{
    if left <= MOST_COLUMNS { "" } else { ".." }
}

/// Appends a line from one of its characters on.
fn push_line_part(text: &mut String, from: usize, line: &[u8]) -> Result<(), OutOfMemory>
    ensures { OnOk result (string_bytes text.new ≡ string_bytes text.old ++ line_part from line.now) }
{
    text.push_str(front_dots(from))?;
    push_shown(text, part_of(line, from, MOST_COLUMNS))?;
    text.push_str(back_dots(line.len().saturating_sub(from)))?;
    Ok(())
}

/// Appends a byte of ASCII so many times.
fn push_many(text: &mut String, mark: u8, count: usize) -> Result<(), OutOfMemory>
    requires { mark < 128 }
    ensures { OnOk result (string_bytes text.new ≡ string_bytes text.old ++ replicate count mark) }
{
    for i in 0..count {
        text.push(char::from(mark))?;
    }
    Ok(())
}

/// Appends a line with its number.
fn push_numbered(
    text: &mut String,
    number: usize,
    from: usize,
    line: &[u8],
) -> Result<(), OutOfMemory>
    ensures { OnOk result (string_bytes text.new ≡ string_bytes text.old ++ numbered_line number from line.now) }
{
    write!(text, "  {number} | ")?;
    push_line_part(text, from, line)?;
    text.push_str("\n")?;
    Ok(())
}

/// A number in digits.
fn digits_of(alloc: Global, number: usize) -> Result<String, OutOfMemory>
    ensures { IfOk result (λ text. string_bytes text ≡ decimal number) }
{
    Ok(format!(in alloc; "{number}")?)
}

/// How many characters stand before the mark.
fn indent(from: usize, column: usize) -> usize
    ensures { result ≡ indent from column }
{
    front_dots(from)
        .len()
        .saturating_add(column.saturating_sub(1).saturating_sub(from))
}

/// Appends the line of the mark: under a number of so many digits, behind so many spaces, so many columns.
fn push_mark(
    text: &mut String,
    width: usize,
    before: usize,
    count: usize,
) -> Result<(), OutOfMemory>
    ensures { OnOk result (string_bytes text.new ≡ string_bytes text.old ++ mark_line width before count) }
{
    text.push_str("  ")?;
    push_many(text, b' ', width)?;
    text.push_str(" | ")?;
    push_many(text, b' ', before)?;
    push_many(text, b'^', count)?;
    text.push_str("\n")?;
    Ok(())
}

/// Appends a line of such characters, of which these stand from the spot on, with its mark.
fn push_marked(
    alloc: Global,
    text: &mut String,
    line: &[u8],
    rest: &[u8],
    spot: Spot,
) -> Result<(), OutOfMemory>
    ensures { OnOk result (string_bytes text.new ≡ string_bytes text.old ++ marked_line line.now rest.now spot) }
{
    let from = left_out(spot.column, line.len());
    let number = digits_of(alloc, spot.line)?;
    push_numbered(text, spot.line, from, line)?;
    push_mark(
        text,
        number.len(),
        indent(from, spot.column),
        marked_columns(rest),
    )
}

/// Appends the line at a spot of a text, with its mark.
pub(crate) fn push_source(
    alloc: Global,
    text: &mut String,
    bytes: &[u8],
    spot: Spot,
) -> Result<(), OutOfMemory>
    ensures { OnOk result (string_bytes text.new ≡ string_bytes text.old ++ source_by bytes.now spot) }
{
    let line = beginnings(
        alloc,
        line_in_front(behind_lines(bytes, spot.line.saturating_sub(1))),
    )?;
    let rest = beginnings(alloc, line_in_front(rest_at(bytes, spot)))?;
    push_marked(alloc, text, line.as_slice(), rest.as_slice(), spot)
}
