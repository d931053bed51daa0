//! Enumerations.

ghost use Rattle.readers.specs.Implements.{Consumes};
ghost use Rattle.model_reader.specs.reading.Items.{enum_at};

use crate::raw::RawItem;
use crate::reading::names::{OneName, raw_name};
use aerie_text::Sort;
use readers::{Limit, Most, Reader, Refusal, listed};
use std::alloc::Global;

/// How many variants an enumeration may have.
const MOST_VARIANTS: Most = Most {
    count: 256,
    limit: Limit::Variants,
};

#[tactic(auto, unfolding(crate::specs::reading::Items::enum_at, crate::specs::reading::Items::variants_at))]
pub fn enum_(alloc: Global, reader: &mut Reader) -> Result<RawItem, Refusal>
    ensures { Consumes enum_at reader.old reader.new result }
{
    reader.take(Sort::Enum)?;
    let name = raw_name(alloc, reader)?;
    reader.take(Sort::OpenBrace)?;
    let variants = listed::<OneName>(alloc, reader, Sort::Name, Some(MOST_VARIANTS))?;
    reader.take(Sort::CloseBrace)?;
    Ok(RawItem::Enum { name, variants })
}
