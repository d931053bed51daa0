//! Activities, their parameters, and the arguments that are given.

use crate::sheet::{Sheet, is_word};

/// A parameter as it is declared: the numbers of the pieces of its name and of its type, and whether it has a default.
#[derive(Clone, Copy)]
pub struct DeclaredParameter {
    pub name: usize,
    pub kind: usize,
    pub has_default: bool,
}

/// The parenthesis that opens the parameters of an activity of this name.
pub fn declared(sheet: &Sheet, name: &[u8]) -> Option<usize> {
    let to = sheet.pieces.len();
    for number in 0..to {
        let at = number.saturating_add(1);
        if sheet.is(number, "activity") && sheet.text(at) == name {
            return Some(number.saturating_add(2));
        }
    }
    None
}

/// The parameter of this number, from 0, behind the parenthesis that opens them.
pub fn nth_parameter(sheet: &Sheet, open: usize, which: usize) -> Option<DeclaredParameter> {
    let close = sheet.closing(open)?;
    let mut count = 0usize;
    for number in open..close {
        if sheet.is_one_of(number, &["(", ","]) {
            let name = number.saturating_add(1);
            if count == which && name < close && is_word(sheet.text(name)) {
                return Some(DeclaredParameter {
                    name,
                    kind: number.saturating_add(3),
                    has_default: sheet.is(number.saturating_add(4), "="),
                });
            }
            count = count.saturating_add(1);
        }
    }
    None
}

/// The parameter of this name behind the parenthesis that opens them.
pub fn parameter_named(sheet: &Sheet, open: usize, name: &[u8]) -> Option<DeclaredParameter> {
    for which in 0..16 {
        if let Some(parameter) = nth_parameter(sheet, open, which) {
            if sheet.text(parameter.name) == name {
                return Some(parameter);
            }
        }
    }
    None
}

/// How many commas stand between two pieces.
pub fn commas(sheet: &Sheet, from: usize, to: usize) -> usize {
    let mut count = 0usize;
    let end = to.min(sheet.pieces.len());
    for number in from..end {
        if sheet.is(number, ",") {
            count = count.saturating_add(1);
        }
    }
    count
}

/// The number of the piece of an argument of this name between two parentheses.
pub fn given(sheet: &Sheet, open: usize, name: &[u8]) -> Option<usize> {
    let close = sheet.closing(open)?;
    let mut found = None;
    for number in open..close {
        let at = number.saturating_add(1);
        let is_name = sheet.is_one_of(number, &["(", ","]) && sheet.text(at) == name;
        if is_name && sheet.is(number.saturating_add(2), "=") {
            found = Some(at);
        }
    }
    found
}

/// The number of the last piece of the value that begins at a piece and ends in front of a comma or a parenthesis.
pub fn value_end(sheet: &Sheet, from: usize) -> usize {
    let to = sheet.pieces.len();
    for number in from..to {
        if sheet.is_one_of(number.saturating_add(1), &[",", ")", ";"]) {
            return number;
        }
    }
    from
}

/// The number of the first variant of the enumeration of this name.
pub fn first_variant(sheet: &Sheet, name: &[u8]) -> Option<usize> {
    let to = sheet.pieces.len();
    for number in 0..to {
        if sheet.is(number, "enum") && sheet.text(number.saturating_add(1)) == name {
            return Some(number.saturating_add(3));
        }
    }
    None
}

/// Whether the piece is the name of an argument.
pub fn is_argument(sheet: &Sheet, number: usize) -> bool {
    sheet.is(number.saturating_add(1), "=")
        && sheet.is_one_of(number.saturating_sub(1), &["(", ","])
}
