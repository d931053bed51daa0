//! Changes that may mend a session.

use crate::datasets::dataset;
use crate::directives::{directive, invalid};
use crate::found::{Proposals, TextChange};
use crate::names::{duplicate, renamed, unknown};
use crate::starts::no_start;
use crate::syntax::syntax;
use crate::types::{other_resource, swapped, wrong_types};
use aerie_base::{List, OutOfMemory, Place};
use dataset_in::DatasetError;
use plan_edit::EditError;
use session_sketch::{Piece, Sheet, from_to, number_at, offset_of, pieces_of, plan_duration};
use std::alloc::Global;

/// Where a text begins.
const BEGINNING: Place = Place { line: 1, column: 1 };

/// Numbers that are in range where another one is not.
const IN_RANGE: [&str; 4] = ["1000000000000", "1000", "1", "1h"];

/// Adds other numbers and durations in place of one that is out of range.
fn out_of_range(sheet: &Sheet, found: &mut Proposals) -> Result<(), OutOfMemory> {
    let duration = sheet.text(plan_duration(sheet));
    let piece = sheet.piece(sheet.at);
    if sheet.is_one_of(sheet.back(1), &[",", "to"]) {
        let exchanged = [
            sheet.text(sheet.at),
            " ".as_bytes(),
            sheet.text(sheet.back(1)),
            " ".as_bytes(),
            sheet.text(sheet.back(2)),
        ];
        found.replace_parts(from_to(sheet, sheet.back(2), sheet.at), &exchanged)?;
    }
    found.replace_parts(piece, &[duration])?;
    for number in IN_RANGE {
        found.replace(piece, number)?;
    }
    if sheet.is_one_of(sheet.at, &["-", "("]) {
        let digits = from_to(sheet, sheet.on(1), sheet.on(1));
        for number in ["1000000000000", "1"] {
            found.replace(digits, number)?;
        }
    }
    Ok(())
}

/// Adds linear forms that may be meant, or a resource of another sort.
fn not_linear(sheet: &Sheet, found: &mut Proposals) -> Result<(), OutOfMemory> {
    swapped(sheet, found)?;
    other_resource(sheet, found)
}

/// Adds what may be meant at the piece, by the name of the refusal.
fn by_name(
    alloc: Global,
    sheet: &Sheet,
    name: &[u8],
    found: &mut Proposals,
) -> Result<(), OutOfMemory> {
    match name {
        b"Syntax" => syntax(alloc, sheet, found),
        b"Unknown" => unknown(alloc, sheet, sheet.at, found),
        b"Duplicate" => duplicate(sheet, found),
        b"Client" => renamed(sheet, sheet.at, found),
        b"WrongType" => wrong_types(sheet, found),
        b"NotLinear" => not_linear(sheet, found),
        b"OutOfRange" => out_of_range(sheet, found),
        b"Start" => no_start(alloc, sheet, found),
        b"Invalid" => invalid(sheet, sheet.on(1), found),
        _ => Ok(()),
    }
}

/// The sheet of a text at a place.
fn sheet_at<'a>(bytes: &'a [u8], pieces: &'a [Piece], place: Place) -> Sheet<'a> {
    Sheet {
        bytes,
        pieces,
        at: number_at(pieces, offset_of(bytes, place)),
    }
}

/// Changes of the text of a session that may mend what is refused of it at a place, by the name of the refusal; the likeliest first, at
/// most 100. They come from the pieces around the place, from tables of what is often mixed up, and from the names of the session. None
/// of them was tried. It takes time linear in the text, and memory for each change.
pub fn changes_at(
    alloc: Global,
    bytes: &[u8],
    name: &str,
    place: Place,
) -> Result<List<TextChange>, OutOfMemory> {
    let pieces = pieces_of(alloc, bytes)?;
    let sheet = sheet_at(bytes, pieces.as_slice(), place);
    let mut found = Proposals::new(alloc);
    by_name(alloc, &sheet, name.as_bytes(), &mut found)?;
    Ok(found.into_changes())
}

/// The same where the directive of this number, from 0, is refused.
pub fn changes_of_directive(
    alloc: Global,
    bytes: &[u8],
    number: u32,
    edit: &EditError,
) -> Result<List<TextChange>, OutOfMemory> {
    let pieces = pieces_of(alloc, bytes)?;
    let sheet = sheet_at(bytes, pieces.as_slice(), BEGINNING);
    let mut found = Proposals::new(alloc);
    directive(alloc, &sheet, number, edit, &mut found)?;
    Ok(found.into_changes())
}

/// The same where the dataset of this number, from 0, is refused.
pub fn changes_of_dataset(
    alloc: Global,
    bytes: &[u8],
    number: u32,
    fault: DatasetError,
) -> Result<List<TextChange>, OutOfMemory> {
    let pieces = pieces_of(alloc, bytes)?;
    let sheet = sheet_at(bytes, pieces.as_slice(), BEGINNING);
    let mut found = Proposals::new(alloc);
    dataset(alloc, &sheet, number, fault, &mut found)?;
    Ok(found.into_changes())
}
