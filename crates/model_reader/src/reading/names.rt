//! Names, and words and symbols that stand for a value. The grammars of rules and of sessions have them too.

ghost use Rattle.readers.specs.Implements.{Consumes};
ghost use Rattle.model_reader.specs.reading.Names.{raw_name_at, standing_for, one_standing_for};

use crate::raw::RawName;
use aerie_text::Sort;
use readers::{Element, Reader, Refusal, one_of};
use std::alloc::Global;

/// Reads a name, and keeps its place.
#[tactic(auto, unfolding(crate::specs::reading::Names::raw_name_at))]
pub fn raw_name(alloc: Global, reader: &mut Reader) -> Result<RawName, Refusal>
    ensures { Consumes raw_name_at reader.old reader.new result }
{
    let (at, name) = reader.name(alloc)?;
    Ok(RawName { at, name })
}

/// A name, as a part of a list.
pub struct OneName;

impl Element for OneName {
    type Part = RawName;

    ghost part_at = { raw_name_at };

    fn part(alloc: Global, reader: &mut Reader) -> Result<RawName, Refusal> {
        raw_name(alloc, reader)
    }
}

/// Reads one of these words or symbols, which stands for a value.
#[tactic(auto, unfolding(crate::specs::reading::Names::one_standing_for))]
pub fn one_standing_for<T: Copy>(reader: &mut Reader, table: &[(Sort, T)]) -> Result<T, Refusal>
    ensures { Consumes (one_standing_for table.now) reader.old reader.new result }
{
    let (_at, value) = one_of(reader, table)?;
    Ok(value)
}

/// Reads a word or a symbol that stands for a value.
#[tactic(auto, unfolding(crate::specs::reading::Names::standing_for))]
pub fn standing_for<T: Drop>(reader: &mut Reader, sort: Sort, value: T) -> Result<T, Refusal>
    ensures { Consumes (standing_for sort value) reader.old reader.new result }
{
    reader.take(sort)?;
    Ok(value)
}
