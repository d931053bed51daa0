//! Counters, registers and accumulators.

ghost use Rattle.readers.specs.Implements.{Consumes};
ghost use Rattle.model_reader.specs.reading.Items.{counter_at, register_at, accumulator_at, cell_at};

use crate::raw::{RawItem, RawLiteral, RawLiteralKind};
use crate::reading::literals::{int, literal};
use crate::reading::names::raw_name;
use crate::reading::types::type_;
use aerie_text::Sort;
use readers::{Reader, Refusal, ended_by};
use std::alloc::Global;

#[tactic(auto, unfolding(crate::specs::reading::Items::counter_at))]
fn counter(alloc: Global, reader: &mut Reader) -> Result<RawItem, Refusal>
    ensures { Consumes counter_at reader.old reader.new result }
{
    reader.take(Sort::Counter)?;
    let name = raw_name(alloc, reader)?;
    reader.take(Sort::Assign)?;
    let (_at, start) = int(reader)?;
    ended_by(reader, Sort::Semicolon, RawItem::Counter { name, start })
}

#[tactic(auto, unfolding(crate::specs::reading::Items::register_at))]
fn register(alloc: Global, reader: &mut Reader) -> Result<RawItem, Refusal>
    ensures { Consumes register_at reader.old reader.new result }
{
    reader.take(Sort::Register)?;
    let name = raw_name(alloc, reader)?;
    reader.take(Sort::Colon)?;
    let kind = type_(alloc, reader)?;
    reader.take(Sort::Assign)?;
    let start = literal(alloc, reader)?;
    let item = RawItem::Register { name, kind, start };
    ended_by(reader, Sort::Semicolon, item)
}

#[tactic(auto, unfolding(crate::specs::reading::Items::accumulator_at, crate::specs::reading::Items::int_literal_at))]
fn accumulator(alloc: Global, reader: &mut Reader) -> Result<RawItem, Refusal>
    ensures { Consumes accumulator_at reader.old reader.new result }
{
    reader.take(Sort::Accumulator)?;
    let name = raw_name(alloc, reader)?;
    reader.take(Sort::Assign)?;
    let (_at, volume) = int(reader)?;
    reader.take(Sort::Rate)?;
    let (at, rate) = int(reader)?;
    let what = RawLiteralKind::Number(rate);
    let rate = RawLiteral { at, what };
    let item = RawItem::Accumulator { name, volume, rate };
    ended_by(reader, Sort::Semicolon, item)
}

#[tactic(auto, unfolding(crate::specs::reading::Items::cell_at))]
pub fn cell(alloc: Global, reader: &mut Reader) -> Result<RawItem, Refusal>
    ensures { Consumes cell_at reader.old reader.new result }
{
    if reader.next_is(Sort::Counter) {
        counter(alloc, reader)
    } else if reader.next_is(Sort::Register) {
        register(alloc, reader)
    } else {
        accumulator(alloc, reader)
    }
}
