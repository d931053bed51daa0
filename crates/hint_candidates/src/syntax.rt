//! Where the form of a session is broken.

use crate::blocks::{
    comments, else_if, end_closed, goal_range, in_block, plan_begun, require_moved, sections_moved,
    time_in_front, type_behind, variants_in_braces,
};
use crate::datasets::in_backquotes;
use crate::found::Proposals;
use crate::marks::{
    left_out, missing_marks, missing_words, odd_names, other_marks, third_comparison,
};
use crate::numbers::numbers;
use crate::starts::unquoted;
use crate::words::{is_reserved, language_words};
use aerie_base::OutOfMemory;
use session_sketch::{Sheet, commas, declared, is_word, nth_parameter};
use std::alloc::Global;

/// Adds the name of an argument that is given without it.
fn argument_names(sheet: &Sheet, found: &mut Proposals) -> Result<(), OutOfMemory> {
    let open = sheet.opening(sheet.at).unwrap_or(0);
    if !sheet.is(open, "(") {
        return Ok(());
    }
    let which = commas(sheet, open, sheet.at);
    let Some(declared) = declared(sheet, sheet.text(open.saturating_sub(1))) else {
        return Ok(());
    };
    if let Some(parameter) = nth_parameter(sheet, declared, which) {
        let name = [sheet.text(parameter.name), " = ".as_bytes()];
        found.front_parts(sheet.piece(sheet.at), &name)?;
        found.front_parts(sheet.piece(sheet.back(1)), &name)?;
    }
    Ok(())
}

/// Adds other words in place of the piece or of the one in front.
fn other_words(sheet: &Sheet, found: &mut Proposals) -> Result<(), OutOfMemory> {
    let here = sheet.text(sheet.at);
    let piece = sheet.piece(sheet.at);
    if is_reserved(here) {
        found.replace_parts(piece, &[here, "_".as_bytes()])?;
    }
    if is_word(here) {
        language_words(found, piece, here)?;
    }
    let before = sheet.text(sheet.back(1));
    if is_word(before) {
        language_words(found, sheet.piece(sheet.back(1)), before)?;
    }
    Ok(())
}

/// Adds what may be meant where the form of a session is broken at the piece.
pub(crate) fn syntax(
    alloc: Global,
    sheet: &Sheet,
    found: &mut Proposals,
) -> Result<(), OutOfMemory> {
    numbers(sheet, found)?;
    unquoted(alloc, sheet, found)?;
    in_backquotes(alloc, sheet, found)?;
    end_closed(sheet, found)?;
    comments(sheet, found)?;
    else_if(sheet, found)?;
    argument_names(sheet, found)?;
    other_words(sheet, found)?;
    third_comparison(sheet, found)?;
    other_marks(sheet, found)?;
    odd_names(sheet, found)?;
    plan_begun(sheet, found)?;
    goal_range(sheet, found)?;
    require_moved(sheet, found)?;
    sections_moved(sheet, found)?;
    variants_in_braces(sheet, found)?;
    time_in_front(sheet, found)?;
    in_block(sheet, found)?;
    missing_marks(sheet, found)?;
    missing_words(sheet, found)?;
    left_out(sheet, found)?;
    type_behind(sheet, found)?;
    found.behind(sheet.piece(sheet.at), ";")
}
