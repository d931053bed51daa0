//! Words of the language.

use crate::found::Proposals;
use aerie_base::OutOfMemory;
use session_sketch::{Piece, distance, is_same_word};

/// The reserved words.
const RESERVED: [&str; 67] = [
    "accumulator",
    "activity",
    "add",
    "and",
    "at",
    "call",
    "cardinality",
    "client",
    "coexistence",
    "conflicted",
    "constraints",
    "count",
    "counter",
    "daemon",
    "delay",
    "discrete",
    "drop",
    "duration",
    "during",
    "else",
    "end",
    "enum",
    "every",
    "expand",
    "false",
    "for",
    "forbid",
    "fork",
    "from",
    "goals",
    "if",
    "in",
    "int",
    "keeping",
    "let",
    "linear",
    "load",
    "longer",
    "merge",
    "model",
    "move",
    "new",
    "not",
    "of",
    "or",
    "plan",
    "rate",
    "recurrence",
    "register",
    "remove",
    "require",
    "return",
    "rollback",
    "schedule",
    "sequence",
    "set",
    "shift",
    "show",
    "simulate",
    "spawn",
    "start",
    "to",
    "true",
    "truth",
    "until",
    "volume",
    "while",
];

/// Words of other languages, each with the word of this one that is meant.
const MEANT: [(&str, &str); 62] = [
    ("bool", "truth"),
    ("boolean", "truth"),
    ("integer", "int"),
    ("float", "int"),
    ("double", "int"),
    ("number", "int"),
    ("real", "int"),
    ("long", "int"),
    ("time", "duration"),
    ("yes", "true"),
    ("no", "false"),
    ("on", "true"),
    ("off", "false"),
    ("function", "activity"),
    ("fn", "activity"),
    ("task", "activity"),
    ("process", "daemon"),
    ("sleep", "delay"),
    ("pause", "delay"),
    ("wait", "delay"),
    ("var", "let"),
    ("const", "let"),
    ("state", "register"),
    ("variable", "register"),
    ("sum", "linear"),
    ("resource", "discrete"),
    ("enumeration", "enum"),
    ("type", "enum"),
    ("assert", "require"),
    ("ensure", "require"),
    ("when", "if"),
    ("elif", "else"),
    ("elseif", "else"),
    ("otherwise", "else"),
    ("begin", "start"),
    ("epoch", "start"),
    ("length", "duration"),
    ("horizon", "duration"),
    ("constraint", "constraints"),
    ("rules", "constraints"),
    ("goal", "goals"),
    ("sequences", "sequence"),
    ("commands", "sequence"),
    ("dataset", "load"),
    ("user", "client"),
    ("delete", "remove"),
    ("create", "new"),
    ("branch", "fork"),
    ("copy", "fork"),
    ("run", "simulate"),
    ("execute", "simulate"),
    ("print", "show"),
    ("list", "show"),
    ("change", "set"),
    ("insert", "add"),
    ("shift", "move"),
    ("each", "for"),
    ("foreach", "for"),
    ("within", "in"),
    ("never", "forbid"),
    ("with", "keeping"),
    ("repeat", "recurrence"),
];

/// Whether a word is reserved.
pub(crate) fn is_reserved(word: &[u8]) -> bool {
    word == b"wait".as_slice()
        || word == b"window".as_slice()
        || RESERVED.iter().any(|reserved| reserved.as_bytes() == word)
}

/// Adds the reserved words that are so far from a piece.
fn reserved_at(
    found: &mut Proposals,
    piece: Piece,
    word: &[u8],
    letters: u8,
) -> Result<(), OutOfMemory> {
    for reserved in RESERVED {
        if distance(word, reserved.as_bytes()) == letters {
            found.replace(piece, reserved)?;
        }
    }
    Ok(())
}

/// Adds the words of the language that a piece may mean: those that words of other languages mean, and the reserved ones that look
/// alike, the nearest first.
pub(crate) fn language_words(
    found: &mut Proposals,
    piece: Piece,
    word: &[u8],
) -> Result<(), OutOfMemory> {
    for meant in MEANT {
        if is_same_word(word, meant.0.as_bytes()) {
            found.replace(piece, meant.1)?;
        }
    }
    reserved_at(found, piece, word, 0)?;
    reserved_at(found, piece, word, 1)?;
    if 3 < word.len() {
        reserved_at(found, piece, word, 2)?;
    }
    Ok(())
}
