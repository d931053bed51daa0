//! Numbers with their places.

ghost use Rattle.readers.specs.Implements.{Consumes};
ghost use Rattle.rule_grammar.specs.reading.Templates.{raw_number_at, placed_duration_at};

use crate::raw::RawNumber;
use aerie_text::Sort;
use model_reader::{optional_minus, with_minus};
use readers::{Reader, Refusal};

/// Reads a number, or a duration, and keeps its place.
#[tactic(auto, unfolding(crate::specs::reading::Templates::raw_number_at))]
pub fn raw_number(reader: &mut Reader, sort: Sort) -> Result<RawNumber, Refusal>
    ensures { Consumes (raw_number_at sort) reader.old reader.new result }
{
    let (at, number) = reader.number(sort)?;
    Ok(RawNumber { at, number })
}

/// Reads a duration with its sign, and keeps its place.
#[tactic(auto, unfolding(crate::specs::reading::Templates::placed_duration_at))]
pub fn placed_duration(reader: &mut Reader) -> Result<RawNumber, Refusal>
    ensures { Consumes placed_duration_at reader.old reader.new result }
{
    let minus = optional_minus(reader)?;
    let time = reader.number(Sort::Time)?;
    let (at, number) = with_minus(minus, time);
    Ok(RawNumber { at, number })
}
