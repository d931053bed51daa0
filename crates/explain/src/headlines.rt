//! The first line of an explanation.

ghost use Rattle.std.specs.Prelude.{◌≡◌, ◌++◌, OnOk, string_bytes};
ghost use Rattle.explain.specs.Headlines.{headline};

use crate::spots::Spot;
use aerie_base::OutOfMemory;

/// Appends the first line: what is refused, and where.
pub(crate) fn push_headline(
    text: &mut String,
    name: &str,
    spot: Option<Spot>,
) -> Result<(), OutOfMemory>
    ensures { OnOk result (string_bytes text.new ≡ string_bytes text.old ++ headline name.now spot) }
{
    match spot {
        Some(spot) => {
            let line = spot.line;
            let column = spot.column;
            writeln!(text, "refused: {name} at line {line}, column {column}")?;
        }
        None => writeln!(text, "refused: {name}")?,
    }
    Ok(())
}
