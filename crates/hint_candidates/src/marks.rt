//! Symbols and short words that are put in, changed or left out.

use crate::found::Proposals;
use aerie_base::OutOfMemory;
use session_sketch::{Sheet, count_of, from_to, is_word};

/// What stands for another symbol or word, and what that is.
const ALIKE: [(&str, &str); 45] = [
    ("=", "=="),
    ("=", ":="),
    ("=", ":"),
    ("=", "+="),
    (":=", "="),
    (":=", "+="),
    (":=", "=="),
    ("==", "="),
    ("==", ":="),
    ("+=", "="),
    ("+=", ":="),
    (":", "="),
    (":", "->"),
    (":", ";"),
    ("->", ":"),
    (".", ";"),
    (".", ","),
    (",", ";"),
    (",", "."),
    (";", ","),
    (";", ":"),
    ("]", ")"),
    (")", "]"),
    ("(", "["),
    ("[", "("),
    ("[", "{"),
    ("(", "{"),
    ("{", "("),
    ("}", ")"),
    (")", "}"),
    ("&&", "and"),
    ("||", "or"),
    ("!", "not "),
    ("&", "&&"),
    ("|", "||"),
    ("and", "&&"),
    ("or", "||"),
    ("not", "!"),
    ("#", "//"),
    ("and", ","),
    ("while", "until"),
    ("≤", "<="),
    ("≥", ">="),
    ("≠", "!="),
    ("−", "-"),
];

/// Two pieces that stand for another symbol, and what that is.
const PAIRS: [(&str, &str, &str); 17] = [
    ("wait", "while", "wait until"),
    ("-", "=", "+= -"),
    ("+", "+", "+= 1"),
    ("-", "-", "+= -1"),
    ("-", "-", "//"),
    ("=", ">", ">="),
    ("=", "<", "<="),
    ("=", ">", "->"),
    ("<", ">", "!="),
    ("==", "=", "=="),
    ("!=", "=", "!="),
    ("/", "*", "//"),
    (";", ";", ";"),
    ("(", ")", ""),
    ("<=", ">", "->"),
    (":", ":", "."),
    ("*", "=", ":="),
];

/// What may be missing behind the piece in front.
const MISSING: [&str; 10] = [";", "()", ")", ",", " =", ":", " {", "(", "]", " :="];

/// Words that may be missing in front of the piece.
const MISSING_WORDS: [&str; 11] = [
    "to ", "from ", "at ", "of ", "in ", "until ", "for ", "rate ", "-> ", "start ", "+ 0us ",
];

/// Values that may be missing behind the piece in front of a mark that ends something.
const MISSING_VALUES: [&str; 6] = [" = 0", " rate 0", " 0", " = false", ": int", ": truth"];

/// Adds other symbols in place of the piece.
pub(crate) fn other_marks(sheet: &Sheet, found: &mut Proposals) -> Result<(), OutOfMemory> {
    let piece = sheet.piece(sheet.at);
    for pair in PAIRS {
        if sheet.is(sheet.at, pair.0) && sheet.is(sheet.on(1), pair.1) {
            found.replace(from_to(sheet, sheet.at, sheet.on(1)), pair.2)?;
        }
        if sheet.is(sheet.back(1), pair.0) && sheet.is(sheet.at, pair.1) {
            found.replace(from_to(sheet, sheet.back(1), sheet.at), pair.2)?;
        }
    }
    for alike in ALIKE {
        if sheet.is(sheet.at, alike.0) {
            found.replace(piece, alike.1)?;
        }
    }
    Ok(())
}

/// Adds that something behind a name that needs it is put in.
fn missing_values(sheet: &Sheet, found: &mut Proposals) -> Result<(), OutOfMemory> {
    let before = sheet.piece(sheet.back(1));
    if sheet.is_one_of(sheet.at, &[";", ",", ")", "="]) {
        for value in MISSING_VALUES {
            found.behind(before, value)?;
        }
        let name = sheet.text(sheet.back(1));
        if is_word(name) {
            found.put_parts(before.to, before.to, &[" = ".as_bytes(), name])?;
        }
        found.put_parts(
            before.to,
            before.to,
            &[": ".as_bytes(), sheet.text(sheet.on(1))],
        )?;
    }
    Ok(())
}

/// Adds braces behind the piece in front, where the text has too few that close.
fn missing_braces(sheet: &Sheet, found: &mut Proposals) -> Result<(), OutOfMemory> {
    if count_of(sheet, "}") < count_of(sheet, "{") {
        let before = sheet.piece(sheet.back(1));
        for braces in [" }", " } }"] {
            found.behind(before, braces)?;
        }
    }
    Ok(())
}

/// Adds that a symbol is put in behind the piece in front.
pub(crate) fn missing_marks(sheet: &Sheet, found: &mut Proposals) -> Result<(), OutOfMemory> {
    let before = sheet.piece(sheet.back(1));
    missing_braces(sheet, found)?;
    for mark in MISSING {
        found.behind(before, mark)?;
    }
    if sheet.is(sheet.back(1), ")") {
        found.behind(before, " { }")?;
    }
    missing_values(sheet, found)
}

/// Adds that a word or a name is put in in front of the piece.
pub(crate) fn missing_words(sheet: &Sheet, found: &mut Proposals) -> Result<(), OutOfMemory> {
    let here = sheet.piece(sheet.at);
    for word in MISSING_WORDS {
        found.front(here, word)?;
    }
    if sheet.is_one_of(sheet.at, &["at", ";", "from"]) {
        let plan = sheet.next(0, "plan").unwrap_or(0);
        let branch = sheet.text(plan.saturating_add(1));
        found.front_parts(here, &[" ".as_bytes(), branch, " ".as_bytes()])?;
    }
    if sheet.is_one_of(sheet.at, &["{", ":", "=", "at", "("]) {
        found.front(here, " name ")?;
    }
    found.front(sheet.piece(sheet.back(1)), "rule: ")
}

/// Symbols that may be too many where the form is broken, and those that may be too many in front of it.
const TOO_MANY_HERE: [&str; 9] = [",", ";", ":", ")", "}", "]", "+", "*", "="];

const TOO_MANY_IN_FRONT: [&str; 4] = [",", ";", "&&", "||"];

/// Adds that a symbol, the one in front, or a word that stands twice is left out.
pub(crate) fn left_out(sheet: &Sheet, found: &mut Proposals) -> Result<(), OutOfMemory> {
    let here = sheet.text(sheet.at);
    if sheet.is_one_of(sheet.at, &TOO_MANY_HERE)
        || is_word(here) && here == sheet.text(sheet.back(1))
    {
        found.replace(sheet.piece(sheet.at), "")?;
    }
    if sheet.is_one_of(sheet.back(1), &TOO_MANY_IN_FRONT) {
        found.replace(sheet.piece(sheet.back(1)), "")?;
    }
    Ok(())
}

/// Adds what joins the parts of a comparison of three.
pub(crate) fn third_comparison(sheet: &Sheet, found: &mut Proposals) -> Result<(), OutOfMemory> {
    let here = sheet.piece(sheet.at);
    if sheet.is_one_of(sheet.at, &["<", "<=", ">", ">=", "==", "!="]) {
        let middle = sheet.text(sheet.back(1));
        found.front_parts(here, &["&& ".as_bytes(), middle, " ".as_bytes()])?;
        found.front_parts(here, &["and ".as_bytes(), middle, " ".as_bytes()])?;
    }
    Ok(())
}

/// Adds the change of a name that has dashes or quotation marks.
pub(crate) fn odd_names(sheet: &Sheet, found: &mut Proposals) -> Result<(), OutOfMemory> {
    let one = sheet.text(sheet.back(1));
    let other = sheet.text(sheet.on(1));
    if sheet.is(sheet.at, "-") && is_word(one) && is_word(other) {
        let piece = from_to(sheet, sheet.back(1), sheet.on(1));
        found.replace_parts(piece, &[one, "_".as_bytes(), other])?;
    }
    let here = sheet.text(sheet.at);
    if let [b'"', name @ .., b'"'] = here {
        found.replace_parts(sheet.piece(sheet.at), &[name])?;
        found.replace_parts(
            sheet.piece(sheet.at),
            &["`".as_bytes(), name, "`".as_bytes()],
        )?;
    }
    let inside = ["(".as_bytes(), here, ")".as_bytes()];
    found.replace_parts(sheet.piece(sheet.at), &inside)?;
    if is_word(one) && is_word(here) {
        let piece = from_to(sheet, sheet.back(1), sheet.at);
        found.replace_parts(piece, &[one, "_".as_bytes(), here])?;
    }
    Ok(())
}
