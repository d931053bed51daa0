//! Sections of a session, and statements with their blocks.

use crate::sheet::Sheet;

/// The last piece of a statement with its blocks that begins at a piece with `if`.
pub fn end_of_branches(sheet: &Sheet, from: usize) -> Option<usize> {
    let mut open = sheet.next(from, "{")?;
    for _ in 0..64 {
        let close = sheet.closing(open)?;
        let next = close.saturating_add(1);
        if !sheet.is(next, "else") {
            return Some(close);
        }
        open = sheet.next(next, "{")?;
    }
    None
}

/// Whether a section begins at a piece.
pub fn is_section(sheet: &Sheet, number: usize) -> bool {
    sheet.is_one_of(
        number,
        &[
            "model",
            "from",
            "plan",
            "load",
            "constraints",
            "goals",
            "sequence",
            "client",
        ],
    )
}

/// The last piece of the section that begins at a piece.
pub fn section_end(sheet: &Sheet, from: usize) -> Option<usize> {
    if sheet.is(from, "load") {
        return sheet.next(from, ";");
    }
    sheet.closing(sheet.next(from, "{")?)
}

/// The piece that is the duration of the plan, or the end of the text.
pub fn plan_duration(sheet: &Sheet) -> usize {
    let end = sheet.pieces.len();
    let plan = sheet.next(0, "plan").unwrap_or(end);
    sheet
        .next(plan, "duration")
        .unwrap_or(end)
        .saturating_add(1)
}
