//! Items of a model, with the limits of how many of each it has. The time is linear in the marks of the items.

mod activities;
mod cells;
mod counting;
mod enumerations;
mod parameters;
mod resources;

ghost use Rattle.std.specs.Prelude.{◌≡◌};
ghost use Rattle.readers.specs.Implements.{Consumes, MayConsume};
ghost use Rattle.readers.specs.Parsed.{next_fits, repeated};
ghost use Rattle.model_reader.specs.reading.Items.{kind_at, iteration_at, none_declared, begins_item, item_at, items_at};

use crate::raw::RawItem;
use crate::reading::declarations::{Declarations, ItemKind};
use crate::reading::items::activities::{activity, daemon};
use crate::reading::items::cells::cell;
use crate::reading::items::counting::{declared_count, most_of, none_declared, with_item};
use crate::reading::items::enumerations::enum_;
use crate::reading::items::resources::resource;
use aerie_base::List;
use aerie_text::Sort;
use readers::{Reader, Refusal};
use std::alloc::Global;

/// Reads an item of a kind.
fn item_of(alloc: Global, reader: &mut Reader, kind: ItemKind) -> Result<RawItem, Refusal>
    ensures { Consumes (kind_at kind) reader.old reader.new result }
{
    match kind {
        ItemKind::Enum => enum_(alloc, reader),
        ItemKind::Cell => cell(alloc, reader),
        ItemKind::Resource => resource(alloc, reader),
        ItemKind::Activity => activity(alloc, reader),
        ItemKind::Daemon => daemon(alloc, reader),
    }
}

/// The same, if the model may have one more of the kind, and puts it behind those so far.
#[tactic(auto, unfolding(crate::specs::reading::Items::iteration_at, crate::specs::reading::Items::declared_at))]
fn iteration(
    alloc: Global,
    reader: &mut Reader,
    kind: ItemKind,
    so_far: Declarations,
) -> Result<Declarations, Refusal>
    ensures { Consumes (iteration_at kind so_far) reader.old reader.new result }
{
    let most = most_of(kind);
    if declared_count(kind, &so_far) >= most.count {
        return Err(Refusal::TooMany(most.limit));
    }
    let last = item_of(alloc, reader, kind)?;
    Ok(with_item(kind, so_far, last)?)
}

/// Whether the next mark begins an item.
fn begins_item(reader: &Reader) -> bool
    ensures { result ≡ next_fits begins_item reader.now }
{
    reader.next_is_one_of(&[
        Sort::Enum,
        Sort::Counter,
        Sort::Register,
        Sort::Accumulator,
        Sort::Discrete,
        Sort::Linear,
        Sort::Activity,
        Sort::Daemon,
    ])
}

/// Reads an item, and puts it behind those so far.
#[tactic(auto, unfolding(crate::specs::reading::Items::item_at))]
fn item(alloc: Global, reader: &mut Reader, so_far: Declarations) -> Result<Declarations, Refusal>
    ensures { Consumes (item_at so_far) reader.old reader.new result }
{
    if reader.next_is(Sort::Enum) {
        iteration(alloc, reader, ItemKind::Enum, so_far)
    } else if reader.next_is_one_of(&[Sort::Counter, Sort::Register, Sort::Accumulator]) {
        iteration(alloc, reader, ItemKind::Cell, so_far)
    } else if reader.next_is_one_of(&[Sort::Discrete, Sort::Linear]) {
        iteration(alloc, reader, ItemKind::Resource, so_far)
    } else if reader.next_is(Sort::Activity) {
        iteration(alloc, reader, ItemKind::Activity, so_far)
    } else if reader.next_is(Sort::Daemon) {
        iteration(alloc, reader, ItemKind::Daemon, so_far)
    } else {
        Err(Refusal::Syntax)
    }
}

/// Reads items, and counts those of each sort.
fn declarations(alloc: Global, reader: &mut Reader) -> Result<Declarations, Refusal>
    ensures { MayConsume (repeated begins_item item_at none_declared) reader.old reader.new result }
{
    let mut declared = none_declared(alloc);
    while begins_item(reader) {
        declared = item(alloc, reader, declared)?;
    }
    Ok(declared)
}

#[tactic(auto, unfolding(crate::specs::reading::Items::items_at))]
pub fn items(alloc: Global, reader: &mut Reader) -> Result<List<RawItem>, Refusal>
    ensures { MayConsume items_at reader.old reader.new result }
{
    let declared = declarations(alloc, reader)?;
    Ok(declared.items)
}
