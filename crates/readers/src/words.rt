//! Words and symbols that stand for a value, and those that end a part.

ghost use Rattle.std.specs.Prelude.{◌≡◌, IfOk};
ghost use Rattle.readers.specs.Endings.{ended_by};
ghost use Rattle.readers.specs.Implements.{Consumes};
ghost use Rattle.readers.specs.Parsed.{one_of_at};

use crate::reader::Reader;
use crate::refusal::Refusal;
use aerie_base::Place;
use aerie_text::Sort;

/// Reads the next token, which is of one of the sorts of the table, and gives its place and what it stands for. It takes time
/// linear in the table.
pub fn one_of<T: Copy>(reader: &mut Reader, table: &[(Sort, T)]) -> Result<(Place, T), Refusal>
    ensures { Consumes (one_of_at table.now) reader.old reader.new result }
{
    match table.split_first() {
        Some((entry, others)) => {
            if reader.next_is(entry.0) {
                let at = reader.take(entry.0)?;
                Ok((at, entry.1))
            } else {
                one_of(reader, others)
            }
        }
        None => Err(Refusal::Syntax),
    }
}

/// Reads the symbol that ends a part, and gives the part. Where it is called last, the part need not be dropped by the caller.
pub fn ended_by<T: Drop>(reader: &mut Reader, sort: Sort, part: T) -> Result<T, Refusal>
    ensures read { Consumes (ended_by sort part) reader.old reader.new result }
    ensures kept { IfOk result (λ given. given ≡ part) }
{
    reader.take(sort)?;
    Ok(part)
}
