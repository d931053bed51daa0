//! Directives of the plan, templates of goals, and datasets that are refused.

use crate::found::Proposals;
use crate::names::{near_names, unknown, without_argument};
use crate::types::{argument_in, missing_argument, other_values};
use aerie_base::OutOfMemory;
use plan_edit::EditError;
use session_sketch::{
    Piece, Sheet, begins_with_digit, declared, from_to, given, is_argument, is_digits, micros_of,
    nth, parameter_named, plan_duration, value_end, value_of,
};
use std::alloc::Global;

/// Adds longer plans, and earlier times, for a directive at a piece that is outside of its plan.
fn outside(
    sheet: &Sheet,
    at: usize,
    name: usize,
    found: &mut Proposals,
) -> Result<(), OutOfMemory> {
    let time = micros_of(sheet.text(at.saturating_add(1)));
    let duration = sheet.piece(plan_duration(sheet));
    let when = from_to(sheet, at.saturating_add(1), name.saturating_sub(1));
    if time != 0 {
        let longer = (time / 3_600_000_000)
            .saturating_add(1)
            .saturating_mul(3_600_000_000);
        found.replace_duration(duration, longer)?;
        let plan = micros_of(sheet.text(plan_duration(sheet)));
        let earlier = plan.saturating_sub(3_600_000_000).max(plan / 2).max(1);
        found.replace_duration(when, earlier)?;
    } else {
        let instant = sheet.text(at.saturating_add(1));
        let start = sheet
            .next(sheet.next(0, "plan").unwrap_or(0), "start")
            .unwrap_or(at);
        found.replace(when, "0us")?;
        found.replace_parts(sheet.piece(start.saturating_add(1)), &[instant])?;
        found.replace(duration, "365d")?;
    }
    Ok(())
}

/// Adds other directives as the anchor of one at a piece, the number of which is given, from 0.
fn other_anchors(
    sheet: &Sheet,
    at: usize,
    name: usize,
    which: u32,
    found: &mut Proposals,
) -> Result<(), OutOfMemory> {
    let anchor = sheet.piece(at.saturating_add(3));
    let before = which.saturating_sub(1);
    let behind = which.saturating_add(2);
    for id in [which, before, 1, behind] {
        if id != 0 {
            found.replace_number(anchor, u64::from(id))?;
        }
    }
    let when = from_to(sheet, at.saturating_add(1), name.saturating_sub(1));
    found.replace(when, "0us")
}

/// Adds what may be meant where an argument of this name is refused.
fn bad_argument(
    alloc: Global,
    sheet: &Sheet,
    open: usize,
    name: &[u8],
    found: &mut Proposals,
) -> Result<(), OutOfMemory> {
    let kind = sheet.text(open.saturating_sub(1));
    let declared = declared(sheet, kind).unwrap_or(0);
    let parameter = parameter_named(sheet, declared, name);
    match (given(sheet, open, name), parameter) {
        (None, Some(parameter)) => argument_in(sheet, open, parameter, found),
        (Some(at), None) => {
            unknown(alloc, sheet, at, found)?;
            without_argument(sheet, at, found)
        }
        (Some(at), Some(_)) => {
            let value = at.saturating_add(2);
            let last = value_end(sheet, value);
            other_values(sheet, value, last, found)?;
            near_names(alloc, sheet, last, found)?;
            without_argument(sheet, at, found)
        }
        (None, None) => Ok(()),
    }
}

/// Adds a literal of a `require`, which stands at a piece, in place of a value.
fn literal_of(
    sheet: &Sheet,
    literal: usize,
    value: Piece,
    found: &mut Proposals,
) -> Result<(), OutOfMemory> {
    let text = sheet.text(literal);
    let sign = if sheet.is(literal.saturating_sub(1), "-") {
        "-"
    } else {
        ""
    };
    found.replace_two(value, sign.as_bytes(), text)
}

/// Adds the numbers beside a literal in place of a value.
fn beside_literal(
    sheet: &Sheet,
    literal: usize,
    value: Piece,
    found: &mut Proposals,
) -> Result<(), OutOfMemory> {
    let text = sheet.text(literal);
    if is_digits(text) {
        let more = value_of(text).saturating_add(1);
        let less = value_of(text).saturating_sub(1);
        found.replace_number(value, more)?;
        found.replace_number(value, less)?;
    }
    Ok(())
}

/// Adds the literals of a `require` that speaks of an argument, and the numbers beside them, in place of its value.
fn literals_of(
    sheet: &Sheet,
    requirement: (usize, usize),
    value: Piece,
    found: &mut Proposals,
) -> Result<(), OutOfMemory> {
    for literal in (requirement.0..requirement.1).rev() {
        if begins_with_digit(sheet.text(literal)) {
            literal_of(sheet, literal, value, found)?;
        }
    }
    for literal in requirement.0..requirement.1 {
        beside_literal(sheet, literal, value, found)?;
    }
    Ok(())
}

/// Whether a name stands between two pieces.
fn speaks_of(sheet: &Sheet, requirement: (usize, usize), name: &[u8]) -> bool {
    for number in requirement.0..requirement.1 {
        if sheet.text(number) == name {
            return true;
        }
    }
    false
}

/// Adds other values for an argument, which stands at a piece, by the `require`s behind the parameters that open at another one.
fn other_argument(
    sheet: &Sheet,
    declared: usize,
    name: usize,
    found: &mut Proposals,
) -> Result<(), OutOfMemory> {
    let first = name.saturating_add(2);
    let value = from_to(sheet, first, value_end(sheet, first));
    let body = sheet.closing(declared).unwrap_or(declared);
    let mut end = sheet.next(body, "{").unwrap_or(body);
    for _ in 0..16 {
        let from = end.saturating_add(1);
        if sheet.is(from, "require") {
            end = sheet.next(from, ";").unwrap_or(from);
            if speaks_of(sheet, (from, end), sheet.text(name)) {
                literals_of(sheet, (from, end), value, found)?;
            }
        }
    }
    Ok(())
}

/// Adds other arguments for an activity whose `require`s refuse those behind a parenthesis.
pub(crate) fn invalid(
    sheet: &Sheet,
    open: usize,
    found: &mut Proposals,
) -> Result<(), OutOfMemory> {
    let declared = declared(sheet, sheet.text(open.saturating_sub(1))).unwrap_or(0);
    let close = sheet.closing(open).unwrap_or(open);
    for number in open..close {
        if is_argument(sheet, number) {
            other_argument(sheet, declared, number, found)?;
        }
    }
    for number in open..close {
        if is_argument(sheet, number) {
            without_argument(sheet, number, found)?;
        }
    }
    Ok(())
}

/// Adds what may be meant by the directive of this number, from 0, which is refused.
pub(crate) fn directive(
    alloc: Global,
    sheet: &Sheet,
    which: u32,
    edit: &EditError,
    found: &mut Proposals,
) -> Result<(), OutOfMemory> {
    let at = nth(sheet, "at", which);
    let open = sheet.next(at, "(").unwrap_or(at);
    let name = open.saturating_sub(1);
    match edit {
        EditError::UnknownType => unknown(alloc, sheet, name, found),
        EditError::BadArgument { parameter } => {
            bad_argument(alloc, sheet, open, parameter.as_str().as_bytes(), found)
        }
        EditError::Invalid { .. } => {
            invalid(sheet, open, found)?;
            missing_argument(sheet, name, found)
        }
        EditError::OutsidePlan => outside(sheet, at, name, found),
        EditError::NoAnchor | EditError::Cycle | EditError::NoDirective => {
            other_anchors(sheet, at, name, which, found)
        }
        _ => Ok(()),
    }
}
