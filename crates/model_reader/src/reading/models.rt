//! Models.

ghost use Rattle.readers.specs.Implements.{Consumes};
ghost use Rattle.model_reader.specs.reading.Models.{model_at};

use crate::raw::RawModel;
use crate::reading::items::items;
use crate::reading::names::raw_name;
use aerie_text::Sort;
use readers::{Reader, Refusal, ended_by};
use std::alloc::Global;

/// Reads a model where the reader stands, and leaves the reader at the token behind it; a refusal is of the token where it
/// stands then.
#[tactic(auto, unfolding(crate::specs::reading::Models::model_at))]
pub fn model(alloc: Global, reader: &mut Reader) -> Result<RawModel, Refusal>
    ensures { Consumes model_at reader.old reader.new result }
{
    reader.take(Sort::Model)?;
    let name = raw_name(alloc, reader)?;
    reader.take(Sort::OpenBrace)?;
    let items = items(alloc, reader)?;
    ended_by(reader, Sort::CloseBrace, RawModel { name, items })
}
