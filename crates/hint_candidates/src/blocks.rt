//! Parts of a text that stand in another order, or whose braces are missing.

use crate::found::Proposals;
use aerie_base::OutOfMemory;
use session_sketch::{
    Sheet, end_of_branches, from_to, is_section, is_word, part, plan_duration, section_end,
};

/// Adds that some pieces move in front of an earlier one.
fn moved(
    sheet: &Sheet,
    to: usize,
    first: usize,
    last: usize,
    found: &mut Proposals,
) -> Result<(), OutOfMemory> {
    let begin = sheet.piece(to).from;
    let between = part(sheet.bytes, begin, sheet.piece(first.saturating_sub(1)).to);
    let parts = [sheet.texts(first, last), " ".as_bytes(), between];
    found.put_parts(begin, sheet.piece(last).to, &parts)
}

/// Adds that the `if` behind an `else` stands in a block of its own.
pub(crate) fn else_if(sheet: &Sheet, found: &mut Proposals) -> Result<(), OutOfMemory> {
    if sheet.is(sheet.at, "if") && sheet.is(sheet.back(1), "else") {
        if let Some(close) = end_of_branches(sheet, sheet.at) {
            let inner = sheet.texts(sheet.at, close);
            let parts = ["{ ".as_bytes(), inner, " }".as_bytes()];
            found.replace_parts(from_to(sheet, sheet.at, close), &parts)?;
        }
    }
    Ok(())
}

/// Adds that the statement at the piece stands in a block.
pub(crate) fn in_block(sheet: &Sheet, found: &mut Proposals) -> Result<(), OutOfMemory> {
    if let Some(end) = sheet.next(sheet.at, ";") {
        let parts = ["{ ".as_bytes(), sheet.texts(sheet.at, end), " }".as_bytes()];
        found.replace_parts(from_to(sheet, sheet.at, end), &parts)?;
    }
    Ok(())
}

/// Adds that the section that begins at the piece stands in front of earlier ones.
pub(crate) fn sections_moved(sheet: &Sheet, found: &mut Proposals) -> Result<(), OutOfMemory> {
    if !is_section(sheet, sheet.at) {
        return Ok(());
    }
    let end = section_end(sheet, sheet.at).unwrap_or(sheet.at);
    let mut open = 0usize;
    let to = sheet.at.min(sheet.pieces.len());
    for number in 0..to {
        if sheet.is(number, "{") {
            open = open.saturating_add(1);
        } else if sheet.is(number, "}") {
            open = open.saturating_sub(1);
        } else if open == 0 && is_section(sheet, number) && !sheet.is(number, "model") {
            moved(sheet, number, sheet.at, end, found)?;
        }
    }
    Ok(())
}

/// The piece with which the last `let` of a name begins in front of a piece.
fn last_made(sheet: &Sheet, before: usize, name: &[u8]) -> Option<usize> {
    let mut found = None;
    let to = before.min(sheet.pieces.len());
    for number in 0..to {
        if sheet.is(number, "let") && sheet.text(number.saturating_add(1)) == name {
            found = Some(number);
        }
    }
    found
}

/// The piece with which a statement begins whose block opens at a piece.
fn statement_of(sheet: &Sheet, open: usize) -> usize {
    let mut begin = 0usize;
    let to = open.min(sheet.pieces.len());
    for number in 0..to {
        if sheet.is_one_of(number, &[";", "{", "}"]) {
            begin = number.saturating_add(1);
        }
    }
    begin
}

/// Adds that a local of a piece's name is made in front of the block that it was made in.
pub(crate) fn made_in_front(
    sheet: &Sheet,
    number: usize,
    found: &mut Proposals,
) -> Result<(), OutOfMemory> {
    let Some(made) = last_made(sheet, number, sheet.text(number)) else {
        return Ok(());
    };
    let end = sheet.next(made, ";").unwrap_or(made);
    let open = sheet.opening(made).unwrap_or(made);
    moved(sheet, statement_of(sheet, open), made, end, found)
}

/// Adds that a `require` stands in front of the other statements of its activity.
pub(crate) fn require_moved(sheet: &Sheet, found: &mut Proposals) -> Result<(), OutOfMemory> {
    if sheet.is(sheet.at, "require") {
        let end = sheet.next(sheet.at, ";").unwrap_or(sheet.at);
        let open = sheet.opening(sheet.at).unwrap_or(0);
        moved(sheet, open.saturating_add(1), sheet.at, end, found)?;
    }
    Ok(())
}

/// Adds that a plan has its start and its duration, in this order.
pub(crate) fn plan_begun(sheet: &Sheet, found: &mut Proposals) -> Result<(), OutOfMemory> {
    let here = sheet.piece(sheet.at);
    if sheet.is(sheet.back(1), "{") && sheet.is(sheet.back(3), "plan") {
        if let Some(start) = sheet.next(sheet.at, "start") {
            let end = sheet.next(start, ";").unwrap_or(start);
            moved(sheet, sheet.at, start, end, found)?;
        }
        found.front(here, "start \"2030-01-01T00:00:00Z\"; ")?;
    }
    if sheet.is(sheet.back(1), ";") && sheet.is(sheet.back(3), "start") {
        if let Some(duration) = sheet.next(sheet.at, "duration") {
            let end = sheet.next(duration, ";").unwrap_or(duration);
            moved(sheet, sheet.at, duration, end, found)?;
        }
        found.front(here, "duration 1d; ")?;
    }
    Ok(())
}

/// Adds the whole plan as the range of a goal.
pub(crate) fn goal_range(sheet: &Sheet, found: &mut Proposals) -> Result<(), OutOfMemory> {
    let behind = sheet.piece(sheet.back(1)).to;
    if sheet.is_one_of(sheet.at, &[";", "keeping", "rollback"]) {
        let parts = [
            " in [0us, ".as_bytes(),
            sheet.text(plan_duration(sheet)),
            ")".as_bytes(),
        ];
        found.put_parts(behind, behind, &parts)?;
    }
    Ok(())
}

/// Adds that a type stands behind its name.
pub(crate) fn type_behind(sheet: &Sheet, found: &mut Proposals) -> Result<(), OutOfMemory> {
    for first in [sheet.at, sheet.back(1)] {
        let next = first.saturating_add(1);
        if is_word(sheet.text(first)) && is_word(sheet.text(next)) {
            let parts = [sheet.text(next), ": ".as_bytes(), sheet.text(first)];
            found.replace_parts(from_to(sheet, first, next), &parts)?;
            let exchanged = [sheet.text(next), " ".as_bytes(), sheet.text(first)];
            found.replace_parts(from_to(sheet, first, next), &exchanged)?;
        }
    }
    Ok(())
}

/// Adds that the variants of an enumeration stand in braces.
pub(crate) fn variants_in_braces(sheet: &Sheet, found: &mut Proposals) -> Result<(), OutOfMemory> {
    if sheet.is(sheet.back(2), "enum") {
        let end = sheet.next(sheet.at, ";").unwrap_or(sheet.at);
        let first = if sheet.is(sheet.at, "=") {
            sheet.on(1)
        } else {
            sheet.at
        };
        let inner = sheet.texts(first, end.saturating_sub(1));
        let parts = ["{ ".as_bytes(), inner, " }".as_bytes()];
        found.replace_parts(from_to(sheet, sheet.at, end), &parts)?;
    }
    Ok(())
}

/// Adds that the time of a directive stands in front of its activity.
pub(crate) fn time_in_front(sheet: &Sheet, found: &mut Proposals) -> Result<(), OutOfMemory> {
    for first in [sheet.at, sheet.back(1)] {
        let open = first.saturating_add(1);
        let close = sheet.closing(open).unwrap_or(open);
        let at = close.saturating_add(1);
        if sheet.is(open, "(") && sheet.is(at, "at") {
            let end = sheet.next(at, ";").unwrap_or(at).saturating_sub(1);
            let parts = [
                sheet.texts(at, end),
                " ".as_bytes(),
                sheet.texts(first, close),
            ];
            found.replace_parts(from_to(sheet, first, end), &parts)?;
        }
    }
    Ok(())
}

/// Adds the braces that are missing at the end of the text.
pub(crate) fn end_closed(sheet: &Sheet, found: &mut Proposals) -> Result<(), OutOfMemory> {
    if sheet.at < sheet.pieces.len() {
        return Ok(());
    }
    let last = sheet.piece(sheet.back(1));
    for braces in [
        " }",
        " } }",
        " } } }",
        "; }",
        " client planner { simulate main; }",
    ] {
        found.behind(last, braces)?;
    }
    Ok(())
}

/// Adds that a comment of another form is left out or becomes one of this language.
pub(crate) fn comments(sheet: &Sheet, found: &mut Proposals) -> Result<(), OutOfMemory> {
    if sheet.is(sheet.at, "/") && sheet.is(sheet.on(1), "*") {
        for star in sheet.at..sheet.pieces.len() {
            if sheet.is(star, "*") && sheet.is(star.saturating_add(1), "/") {
                return found.replace(from_to(sheet, sheet.at, star.saturating_add(1)), "");
            }
        }
    }
    Ok(())
}
