//! Resources.

ghost use Rattle.readers.specs.Implements.{Consumes};
ghost use Rattle.model_reader.specs.reading.Items.{discrete_at, linear_at, resource_at};

use crate::raw::RawItem;
use crate::reading::expressions::expr;
use crate::reading::names::raw_name;
use crate::reading::types::read;
use aerie_text::Sort;
use readers::{Reader, Refusal, ended_by};
use std::alloc::Global;

#[tactic(auto, unfolding(crate::specs::reading::Items::discrete_at))]
fn discrete(alloc: Global, reader: &mut Reader) -> Result<RawItem, Refusal>
    ensures { Consumes discrete_at reader.old reader.new result }
{
    reader.take(Sort::Discrete)?;
    let name = raw_name(alloc, reader)?;
    reader.take(Sort::Assign)?;
    let read = read(alloc, reader)?;
    ended_by(reader, Sort::Semicolon, RawItem::Discrete { name, read })
}

#[tactic(auto, unfolding(crate::specs::reading::Items::linear_at))]
fn linear(alloc: Global, reader: &mut Reader) -> Result<RawItem, Refusal>
    ensures { Consumes linear_at reader.old reader.new result }
{
    reader.take(Sort::Linear)?;
    let name = raw_name(alloc, reader)?;
    reader.take(Sort::Assign)?;
    let sum = expr(alloc, reader)?;
    ended_by(reader, Sort::Semicolon, RawItem::Linear { name, sum })
}

#[tactic(auto, unfolding(crate::specs::reading::Items::resource_at))]
pub fn resource(alloc: Global, reader: &mut Reader) -> Result<RawItem, Refusal>
    ensures { Consumes resource_at reader.old reader.new result }
{
    if reader.next_is(Sort::Discrete) {
        discrete(alloc, reader)
    } else {
        linear(alloc, reader)
    }
}
