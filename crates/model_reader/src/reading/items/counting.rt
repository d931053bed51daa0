//! The items so far: how many there are of each kind, how many there may be, and the items with one more.

ghost use Rattle.std.specs.Prelude.{◌≡◌, ◌<◌, IfOk};
ghost use Rattle.model_reader.specs.reading.Items.{none_declared, declared_count, most_of, with_item};

use crate::raw::RawItem;
use crate::reading::declarations::{Declarations, ItemKind};
use aerie_base::{List, OutOfMemory};
use readers::{Limit, Most};
use std::alloc::Global;

pub fn none_declared(alloc: Global) -> Declarations
    ensures { result ≡ none_declared }
{
    Declarations {
        items: List::new(alloc),
        enums: 0,
        cells: 0,
        resources: 0,
        types: 0,
        daemons: 0,
    }
}

/// How many there are of a kind.
pub fn declared_count(kind: ItemKind, so_far: &Declarations) -> usize
    ensures { result ≡ declared_count kind so_far.now }
{
    match kind {
        ItemKind::Enum => so_far.enums,
        ItemKind::Cell => so_far.cells,
        ItemKind::Resource => so_far.resources,
        ItemKind::Activity => so_far.types,
        ItemKind::Daemon => so_far.daemons,
    }
}

/// How many there may be of a kind.
pub fn most_of(kind: ItemKind) -> Most
    ensures { result ≡ most_of kind }
{
    let (count, limit) = match kind {
        ItemKind::Enum => (64, Limit::Enums),
        ItemKind::Cell => (256, Limit::Cells),
        ItemKind::Resource => (256, Limit::Resources),
        ItemKind::Activity => (256, Limit::Types),
        ItemKind::Daemon => (64, Limit::Daemons),
    };
    Most { count, limit }
}

/// The items so far, and one more of a kind behind them.
pub fn with_item(
    kind: ItemKind,
    so_far: Declarations,
    last: RawItem,
) -> Result<Declarations, OutOfMemory>
    requires { declared_count kind so_far < (most_of kind).count }
    ensures { IfOk result (λ declared. declared ≡ with_item kind so_far last) }
{
    let mut declared = so_far;
    declared.items.push(last)?;
    match kind {
        ItemKind::Enum => declared.enums += 1,
        ItemKind::Cell => declared.cells += 1,
        ItemKind::Resource => declared.resources += 1,
        ItemKind::Activity => declared.types += 1,
        ItemKind::Daemon => declared.daemons += 1,
    }
    Ok(declared)
}
