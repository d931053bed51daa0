//! The ways through the code that the steps of a book took.

ghost use Rattle.std.specs.Prelude.{◌≡◌, ◌↔◌, ◌<◌, ℕ, Some, slice_get, IfOk, IfSome, IfNone, IsTrue};
ghost use Rattle.std.specs.List.{All};
ghost use Rattle.record_book.specs.KeyedItems.{AllStay, HasNo, HasNoUnder, keyed_item};
ghost use Rattle.record_book.specs.Ways.{AreWays, cells_read, state_key, way_of, way_of_step};
ghost use Rattle.record_book.specs.declared.ways.KnownWay.{KnownWay};

use crate::keyed_items::KeyedItems;
use aerie_base::{List, OutOfMemory, Shared};
use effect_cells::CellState;
use run_data::{Record, TaskState};
use std::alloc::Global;
use std::hash::{FoldHasher, Hash, Hasher};

/// A way through the code: the steps from this state that read just these cells.
#[derive(Drop)]
pub(crate) struct KnownWay {
    /// The state.
    pub(crate) state: Shared<TaskState>,
    /// The cells, in order of number.
    pub(crate) cells: List<u16>,
}

/// The key of the ways from a state.
pub(crate) fn state_key(state: &TaskState) -> u64
    ensures { result ≡ state_key ⟦<TaskState as Hash>⟧.hash_input state.now }
{
    let mut hasher = FoldHasher::default();
    state.hash(&mut hasher);
    hasher.finish()
}

/// Whether a way is that of this state and these reads.
fn is_way_of(way: &KnownWay, state: &TaskState, reads: &[(u16, CellState)]) -> bool
    ensures { IsTrue result ↔ (way.now ≡ way_of state.now reads.now) }
{
    way.state.get().is_same(state) && are_cells_of(way.cells.as_slice(), reads)
}

/// Whether these are the cells of the reads.
fn are_cells_of(cells: &[u16], reads: &[(u16, CellState)]) -> bool
    ensures { IsTrue result ↔ (cells.now ≡ cells_read reads.now) }
{
    if cells.len() != reads.len() {
        return false;
    }
    for at in 0..cells.len() {
        if cells[at] != reads[at].0 {
            return false;
        }
    }
    true
}

/// The number of the way of this state and these reads.
pub(crate) fn way_number(
    ways: &KeyedItems<KnownWay>,
    state: &TaskState,
    reads: &[(u16, CellState)],
) -> Option<usize>
    requires { AreWays ⟦<TaskState as Hash>⟧.hash_input ways.now }
    ensures found { IfSome result (λ at. keyed_item ways.now at ≡ Some (way_of state.now reads.now)) }
    ensures none { IfNone result (HasNo ways.now (way_of state.now reads.now)) }
{
    way_under(ways, state_key(state), state, reads)
}

/// The number of the way of this state and these reads among those with a key.
fn way_under(
    ways: &KeyedItems<KnownWay>,
    key: u64,
    state: &TaskState,
    reads: &[(u16, CellState)],
) -> Option<usize>
    ensures found { IfSome result (λ at. keyed_item ways.now at ≡ Some (way_of state.now reads.now)) }
    ensures none { IfNone result (HasNoUnder key ways.now (way_of state.now reads.now)) }
{
    let mut next = ways.newest(key);
    while let Some(at) = next {
        if is_way_of(ways.item(at), state, reads) {
            return Some(at);
        }
        next = ways.older(at);
    }
    None
}

/// The cells of reads.
fn read_cells(alloc: Global, reads: &[(u16, CellState)]) -> Result<List<u16>, OutOfMemory>
    ensures { IfOk result (λ cells. cells ≡ cells_read reads.now) }
{
    let mut cells = List::with_capacity(alloc, reads.len())?;
    for read in reads {
        cells.push(read.0)?;
    }
    Ok(cells)
}

/// The number of the way of a step, which is put behind the others where it is new.
pub(crate) fn way_taken(
    alloc: Global,
    ways: &mut KeyedItems<KnownWay>,
    step: &Record,
) -> Result<usize, OutOfMemory>
    requires { AreWays ⟦<TaskState as Hash>⟧.hash_input ways.old }
    ensures found { IfOk result (λ at. keyed_item ways.new at ≡ Some (way_of_step step.now)) }
    ensures ways { AreWays ⟦<TaskState as Hash>⟧.hash_input ways.new }
    ensures stay { AllStay ways.old ways.new }
{
    let (state, reads) = (step.before.get(), step.reads.as_slice());
    let key = state_key(state);
    match way_under(ways, key, state, reads) {
        Some(at) => Ok(at),
        None => add_way(alloc, ways, key, step),
    }
}

/// Puts the way of a step, which is new, behind the others, under its key.
fn add_way(
    alloc: Global,
    ways: &mut KeyedItems<KnownWay>,
    key: u64,
    step: &Record,
) -> Result<usize, OutOfMemory>
    requires ways { AreWays ⟦<TaskState as Hash>⟧.hash_input ways.old }
    requires key { key ≡ state_key ⟦<TaskState as Hash>⟧.hash_input step.now.before }
    requires new { HasNo ways.old (way_of_step step.now) }
    ensures found { IfOk result (λ at. keyed_item ways.new at ≡ Some (way_of_step step.now)) }
    ensures ways { AreWays ⟦<TaskState as Hash>⟧.hash_input ways.new }
    ensures stay { AllStay ways.old ways.new }
{
    let cells = read_cells(alloc, step.reads.as_slice())?;
    let state = step.before.share()?;
    let at = ways.len();
    match ways.push(alloc, key, KnownWay { state, cells }) {
        Ok(()) => Ok(at),
        Err(error) => Err(error),
    }
}

/// Whether each of the cells is one of so many.
pub(crate) fn are_within(cells: &[u16], count: usize) -> bool
    ensures { IsTrue result ↔ All (λ cell. cell < count) cells.now }
{
    for cell in cells {
        if usize::from(*cell) >= count {
            return false;
        }
    }
    true
}
