//! The lines that tell what takes a session further.

ghost use Rattle.std.specs.Prelude.{◌≡◌, ◌++◌, OnOk, string_bytes};
ghost use Rattle.explain.specs.HintLines.{change_words, hint_line, hint_lines, put_words, quoted, replaced_words, spot_words};

use crate::hint::Hint;
use crate::shown::push_shown;
use crate::sorted::{between, part_of};
use crate::spots::{Spot, spot_at};
use aerie_base::OutOfMemory;

/// The most bytes of a text that are shown.
const MOST_SHOWN: usize = 60;

/// Appends a text as it is shown in a line.
fn push_quoted(text: &mut String, bytes: &[u8]) -> Result<(), OutOfMemory>
    ensures { OnOk result (string_bytes text.new ≡ string_bytes text.old ++ quoted bytes.now) }
{
    text.push_str("`")?;
    push_shown(text, part_of(bytes, 0, MOST_SHOWN))?;
    text.push_str("`")?;
    Ok(())
}

/// Appends where it is, and ends the line.
fn push_spot(text: &mut String, spot: Spot) -> Result<(), OutOfMemory>
    ensures { OnOk result (string_bytes text.new ≡ string_bytes text.old ++ spot_words spot) }
{
    let line = spot.line;
    let column = spot.column;
    writeln!(text, " at line {line}, column {column}")?;
    Ok(())
}

/// Appends what is put in.
fn push_put(text: &mut String, put: &[u8]) -> Result<(), OutOfMemory>
    ensures { OnOk result (string_bytes text.new ≡ string_bytes text.old ++ put_words put.now) }
{
    text.push_str("  hint: put in ")?;
    push_quoted(text, put)
}

/// Appends what is put in, and in place of what.
fn push_replaced(text: &mut String, put: &[u8], old: &[u8]) -> Result<(), OutOfMemory>
    ensures { OnOk result (string_bytes text.new ≡ string_bytes text.old ++ replaced_words put.now old.now) }
{
    text.push_str("  hint: write ")?;
    push_quoted(text, put)?;
    text.push_str(" in place of ")?;
    push_quoted(text, old)?;
    Ok(())
}

/// Appends what a change puts in, and in place of what.
fn push_change(text: &mut String, bytes: &[u8], hint: &Hint) -> Result<(), OutOfMemory>
    ensures { OnOk result (string_bytes text.new ≡ string_bytes text.old ++ change_words bytes.now hint.now) }
{
    let put = hint.put.as_str().as_bytes();
    if hint.from == hint.to {
        push_put(text, put)
    } else {
        push_replaced(text, put, between(bytes, hint.from, hint.to))
    }
}

/// Appends the line of a change.
fn push_hint(text: &mut String, bytes: &[u8], hint: &Hint) -> Result<(), OutOfMemory>
    ensures { OnOk result (string_bytes text.new ≡ string_bytes text.old ++ hint_line bytes.now hint.now) }
{
    push_change(text, bytes, hint)?;
    push_spot(text, spot_at(bytes, hint.from))
}

/// Appends the lines of changes. Each takes time linear in the bytes.
pub(crate) fn push_hints(text: &mut String, bytes: &[u8], hints: &[Hint]) -> Result<(), OutOfMemory>
    ensures { OnOk result (string_bytes text.new ≡ string_bytes text.old ++ hint_lines bytes.now hints.now) }
{
    for hint in hints {
        push_hint(text, bytes, hint)?;
    }
    Ok(())
}
