//! Types and reads.

ghost use Rattle.readers.specs.Implements.{Consumes, MayConsume};
ghost use Rattle.model_reader.specs.reading.Types.{type_at, part_at, read_part_at, read_at};

use crate::raw::{RawPart, RawRead, RawType};
use crate::reading::names::{one_standing_for, raw_name, standing_for};
use aerie_text::Sort;
use readers::{Reader, Refusal};
use std::alloc::Global;

#[tactic(auto, unfolding(crate::specs::reading::Types::type_at, crate::specs::reading::Types::named_type_at))]
pub fn type_(alloc: Global, reader: &mut Reader) -> Result<RawType, Refusal>
    ensures { Consumes type_at reader.old reader.new result }
{
    if reader.next_is(Sort::Int) {
        standing_for(reader, Sort::Int, RawType::Int)
    } else if reader.next_is(Sort::Duration) {
        standing_for(reader, Sort::Duration, RawType::Int)
    } else if reader.next_is(Sort::Truth) {
        standing_for(reader, Sort::Truth, RawType::Truth)
    } else {
        let name = raw_name(alloc, reader)?;
        Ok(RawType::Named(name))
    }
}

/// Reads which part of a cell is read, behind a dot.
#[tactic(auto, unfolding(crate::specs::reading::Types::part_at))]
pub fn part(reader: &mut Reader) -> Result<RawPart, Refusal>
    ensures { Consumes part_at reader.old reader.new result }
{
    let words = [
        (Sort::Volume, RawPart::Volume),
        (Sort::Rate, RawPart::Rate),
        (Sort::Conflicted, RawPart::Conflicted),
    ];
    one_standing_for(reader, &words)
}

/// Reads which part of a cell is read, behind its name.
#[tactic(auto, unfolding(crate::specs::reading::Types::read_part_at, crate::specs::reading::Types::dotted_part_at))]
fn read_part(reader: &mut Reader) -> Result<RawPart, Refusal>
    ensures { MayConsume read_part_at reader.old reader.new result }
{
    if reader.next_is(Sort::Dot) {
        reader.take(Sort::Dot)?;
        part(reader)
    } else {
        Ok(RawPart::Whole)
    }
}

#[tactic(auto, unfolding(crate::specs::reading::Types::read_at))]
pub fn read(alloc: Global, reader: &mut Reader) -> Result<RawRead, Refusal>
    ensures { Consumes read_at reader.old reader.new result }
{
    let name = raw_name(alloc, reader)?;
    let part = read_part(reader)?;
    Ok(RawRead { name, part })
}
