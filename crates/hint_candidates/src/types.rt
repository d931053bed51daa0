//! Values and names of another type than is needed.

use crate::found::Proposals;
use crate::names::variants;
use aerie_base::OutOfMemory;
use session_sketch::{
    DeclaredParameter, Piece, Sheet, begins_with_digit, declared, first_variant, from_to, given,
    is_argument, is_word, nth_parameter, parameter_named, value_end,
};

/// What may stand behind a name so that another part of it is read.
const PARTS: [&str; 5] = [".volume", ".rate", " > 0", " != 0", ".conflicted"];

/// Values of each type.
const VALUES: [&str; 5] = ["true", "false", "0", "1", "0us"];

/// Adds that a text, and the first variant of a type behind it, is put at an offset; or where the type is none of the session's own
/// another value of it.
fn with_value(
    sheet: &Sheet,
    at: Piece,
    front: &[&[u8]; 3],
    kind: &[u8],
    found: &mut Proposals,
) -> Result<(), OutOfMemory> {
    let value = match kind {
        b"truth" => "false",
        b"duration" => "1min",
        _ => "1",
    };
    let parts = *front;
    match first_variant(sheet, kind) {
        Some(variant) => found.put_parts(
            at.from,
            at.to,
            &[
                parts[0],
                parts[1],
                parts[2],
                kind,
                ".".as_bytes(),
                sheet.text(variant),
            ],
        ),
        None => {
            found.put_parts(
                at.from,
                at.to,
                &[parts[0], parts[1], parts[2], value.as_bytes()],
            )
        }
    }
}

/// Adds that a parameter's argument is put in behind the parenthesis that opens them.
pub(crate) fn argument_in(
    sheet: &Sheet,
    open: usize,
    parameter: DeclaredParameter,
    found: &mut Proposals,
) -> Result<(), OutOfMemory> {
    let close = sheet.closing(open).unwrap_or(open);
    let name = sheet.text(parameter.name);
    let kind = sheet.text(parameter.kind);
    if close == open.saturating_add(1) {
        let at = Piece {
            from: sheet.piece(open).to,
            to: sheet.piece(open).to,
        };
        return with_value(
            sheet,
            at,
            &["".as_bytes(), name, " = ".as_bytes()],
            kind,
            found,
        );
    }
    let before = sheet.piece(close.saturating_sub(1)).to;
    let at = Piece {
        from: before,
        to: before,
    };
    with_value(
        sheet,
        at,
        &[", ".as_bytes(), name, " = ".as_bytes()],
        kind,
        found,
    )
}

/// Adds the first missing argument of what is called, placed or mapped to at a piece, behind which its parenthesis opens.
pub(crate) fn missing_argument(
    sheet: &Sheet,
    at: usize,
    found: &mut Proposals,
) -> Result<(), OutOfMemory> {
    let open = at.saturating_add(1);
    if !sheet.is(open, "(") {
        return Ok(());
    }
    if let Some(declared) = declared(sheet, sheet.text(at)) {
        for which in 0..16 {
            if let Some(parameter) = nth_parameter(sheet, declared, which) {
                let name = sheet.text(parameter.name);
                if !parameter.has_default && given(sheet, open, name).is_none() {
                    return argument_in(sheet, open, parameter, found);
                }
            }
        }
    }
    Ok(())
}

/// Adds the name of a missing argument in place of one that names no parameter.
fn argument_renamed(sheet: &Sheet, at: usize, found: &mut Proposals) -> Result<(), OutOfMemory> {
    let open = at.saturating_add(1);
    let close = sheet.closing(open).unwrap_or(open);
    let Some(declared) = declared(sheet, sheet.text(at)) else {
        return Ok(());
    };
    for number in open..close {
        if is_argument(sheet, number)
            && parameter_named(sheet, declared, sheet.text(number)).is_none()
        {
            return parameters_at(sheet, declared, open, number, found);
        }
    }
    Ok(())
}

/// Adds the parameters without a default that are not given in place of a name.
fn parameters_at(
    sheet: &Sheet,
    declared: usize,
    open: usize,
    number: usize,
    found: &mut Proposals,
) -> Result<(), OutOfMemory> {
    for which in 0..16 {
        if let Some(parameter) = nth_parameter(sheet, declared, which) {
            let name = sheet.text(parameter.name);
            if !parameter.has_default && given(sheet, open, name).is_none() {
                found.replace_parts(sheet.piece(number), &[name])?;
            }
        }
    }
    Ok(())
}

/// Adds a value of another type in place of some pieces.
pub(crate) fn other_values(
    sheet: &Sheet,
    first: usize,
    last: usize,
    found: &mut Proposals,
) -> Result<(), OutOfMemory> {
    let piece = from_to(sheet, first, last);
    if sheet.is(first, "0") {
        found.replace(piece, "false")?;
    }
    for value in VALUES {
        found.replace(piece, value)?;
    }
    let to = sheet.pieces.len();
    for number in 0..to {
        if sheet.is(number, "enum") {
            let kind = sheet.text(number.saturating_add(1));
            let variant = sheet.text(number.saturating_add(3));
            found.replace_parts(piece, &[kind, ".".as_bytes(), variant])?;
        }
    }
    Ok(())
}

/// Adds other signs of an assignment around a piece.
pub(crate) fn other_signs(sheet: &Sheet, found: &mut Proposals) -> Result<(), OutOfMemory> {
    for number in [sheet.on(1), sheet.back(1), sheet.on(3)] {
        if sheet.is_one_of(number, &["=", ":=", "+="]) {
            let piece = sheet.piece(number);
            for sign in [":=", "+=", "="] {
                if !sheet.is(number, sign) {
                    found.replace(piece, sign)?;
                }
            }
        }
    }
    Ok(())
}

/// Adds that a part of the accumulator at the piece is changed in place of the whole.
fn part_changed(sheet: &Sheet, found: &mut Proposals) -> Result<(), OutOfMemory> {
    if sheet.is_one_of(sheet.on(1), &["=", ":="]) {
        let from = sheet.piece(sheet.at).to;
        let to = sheet.piece(sheet.on(1)).to;
        for part in [".volume +=", ".rate +="] {
            found.put(from, to, part)?;
        }
    }
    Ok(())
}

/// Adds that a counter that is set to itself and more has just the rest added: `n := n + x` becomes `n += x`.
fn set_by_itself(sheet: &Sheet, name: usize, found: &mut Proposals) -> Result<(), OutOfMemory> {
    let sign = name.saturating_add(1);
    let again = name.saturating_add(2);
    let plus = name.saturating_add(3);
    let is_set = sheet.is_one_of(sign, &[":=", "="]) && sheet.text(again) == sheet.text(name);
    if is_set && sheet.is(plus, "+") {
        found.replace(from_to(sheet, sign, plus), "+=")?;
    }
    if is_set && sheet.is(plus, "-") {
        found.replace(from_to(sheet, sign, plus), "+= -")?;
    }
    Ok(())
}

/// Adds a type of a result to the activity in which the piece stands.
fn result_declared(sheet: &Sheet, found: &mut Proposals) -> Result<(), OutOfMemory> {
    let activity = sheet.last(sheet.at, "activity").unwrap_or(0);
    if let Some(close) = sheet.closing(activity.saturating_add(2)) {
        for kind in [" -> int", " -> truth", " -> duration"] {
            found.behind(sheet.piece(close), kind)?;
        }
    }
    Ok(())
}

/// Adds that the body that a name or `return` stands in front of or in ends with a `return`, or that one has another form.
fn returns(sheet: &Sheet, found: &mut Proposals) -> Result<(), OutOfMemory> {
    let at = sheet.at;
    if sheet.is(at, "return") {
        found.behind(sheet.piece(at), " 0")?;
        let last = value_end(sheet, at);
        found.replace(from_to(sheet, at.saturating_add(1), last), "")?;
        found.replace(from_to(sheet, at, last.saturating_add(1)), "")?;
    }
    if sheet.is(at, "return") {
        result_declared(sheet, found)?;
    }
    if sheet.is(sheet.back(1), "activity") {
        if let Some(open) = sheet.next(at, "{") {
            if let Some(close) = sheet.closing(open) {
                let before = sheet.piece(close.saturating_sub(1));
                for value in [" return 0;", " return true;", " return 0us;"] {
                    found.behind(before, value)?;
                }
            }
        }
        if let Some(arrow) = sheet.next(at, "->") {
            found.replace(from_to(sheet, arrow, arrow.saturating_add(1)), "")?;
        }
    }
    Ok(())
}

/// Adds that another part of a name is read or changed.
fn other_parts(sheet: &Sheet, found: &mut Proposals) -> Result<(), OutOfMemory> {
    if !is_word(sheet.text(sheet.at)) {
        return Ok(());
    }
    let piece = sheet.piece(sheet.at);
    for part in PARTS {
        found.behind(piece, part)?;
    }
    if sheet.is(sheet.on(1), ".") {
        let with_part = from_to(sheet, sheet.at, sheet.on(2));
        found.replace_parts(with_part, &[sheet.text(sheet.at)])?;
        for part in PARTS {
            found.replace_parts(with_part, &[sheet.text(sheet.at), part.as_bytes()])?;
        }
    }
    Ok(())
}

/// Adds that a resource is of the other sort.
pub(crate) fn other_resource(sheet: &Sheet, found: &mut Proposals) -> Result<(), OutOfMemory> {
    for number in [sheet.back(3), sheet.back(5)] {
        if sheet.is(number, "linear") {
            found.replace(sheet.piece(number), "discrete")?;
        }
        if sheet.is(number, "discrete") {
            found.replace(sheet.piece(number), "linear")?;
        }
    }
    Ok(())
}

/// Adds that a local's name becomes another one, or that it is set in place of made.
pub(crate) fn locals(sheet: &Sheet, found: &mut Proposals) -> Result<(), OutOfMemory> {
    if sheet.is(sheet.back(1), "let") {
        found.put(
            sheet.piece(sheet.back(1)).from,
            sheet.piece(sheet.at).from,
            "",
        )?;
    }
    Ok(())
}

/// Adds what may be meant where a type is another one than is needed.
pub(crate) fn wrong_types(sheet: &Sheet, found: &mut Proposals) -> Result<(), OutOfMemory> {
    argument_renamed(sheet, sheet.at, found)?;
    missing_argument(sheet, sheet.at, found)?;
    set_by_itself(sheet, sheet.at, found)?;
    set_by_itself(sheet, sheet.back(2), found)?;
    if found.is_empty() {
        other_signs(sheet, found)?;
        part_changed(sheet, found)?;
    }
    returns(sheet, found)?;
    other_resource(sheet, found)?;
    if sheet.is_one_of(sheet.on(1), &["==", "!="]) {
        variants(sheet, sheet.on(2), found)?;
    }
    other_parts(sheet, found)?;
    let is_value = begins_with_digit(sheet.text(sheet.at)) || sheet.is(sheet.on(1), ".");
    let last = if sheet.is(sheet.on(1), ".") {
        sheet.on(2)
    } else {
        sheet.at
    };
    if is_value || is_word(sheet.text(sheet.at)) {
        other_values(sheet, sheet.at, last, found)?;
    }
    if sheet.is(sheet.at, "-") {
        other_values(sheet, sheet.at, sheet.on(1), found)?;
    }
    Ok(())
}

/// Adds that the two factors of a product change their places.
pub(crate) fn swapped(sheet: &Sheet, found: &mut Proposals) -> Result<(), OutOfMemory> {
    for first in [sheet.at, sheet.back(1), sheet.back(2)] {
        let star = first.saturating_add(1);
        let last = first.saturating_add(2);
        if sheet.is(star, "*") {
            let factors = [sheet.text(last), " * ".as_bytes(), sheet.text(first)];
            found.replace_parts(from_to(sheet, first, last), &factors)?;
            found.replace(from_to(sheet, star, last), "")?;
        }
        if sheet.is(star, ".") && sheet.is(first.saturating_add(3), "*") {
            let second = first.saturating_add(4);
            let factors = [
                sheet.text(second),
                " * ".as_bytes(),
                sheet.texts(first, last),
            ];
            found.replace_parts(from_to(sheet, first, second), &factors)?;
            found.replace(from_to(sheet, first.saturating_add(3), second), "")?;
        }
    }
    Ok(())
}
