//! Steps with the numbers of their ways: how one is found, and how one is added.

ghost use Rattle.std.specs.Prelude.{◌≡◌, ◌<◌, ◌↔◌, IsTrue, ℕ, Some, true, false, length, slice_get, IfOk, OnOk, OnErr, OnSome, IfSome, IfNone};
ghost use Rattle.std.specs.List.{All};
ghost use Rattle.record_book.specs.KeyedItems.{keyed_item};
ghost use Rattle.record_book.specs.StoredSteps.{FitsView, IsPlaceOfRecord, has_record, with_record};
ghost use Rattle.record_book.specs.Ways.{AreKeyed, FitsAt, FitsOn, HoldsOfStep, IsIndex, IsOnWay, NoneFits, NoneFitsUnder, NoneIsOnWay, NoneIsOnWayUnder, ReadOnWay, cells_read, records_of, step_key, way_of, way_of_step};
ghost use Rattle.record_book.specs.declared.stored_steps.StoredStep.{StoredStep};
ghost use Rattle.record_book.specs.declared.ways.KnownWay.{KnownWay};

use crate::keyed_items::KeyedItems;
use crate::probes::{Probe, reads_key};
use crate::ways::{KnownWay, are_within, state_key, way_number, way_taken};
use aerie_base::{OutOfMemory, Shared};
use effect_cells::{CellState, Cells};
use run_data::{Record, TaskState};
use std::alloc::Global;
use std::hash::Hash;

/// A step with the number of its way.
#[derive(Drop)]
pub(crate) struct StoredStep {
    /// The step.
    pub(crate) step: Shared<Record>,
    /// Its way.
    pub(crate) way: usize,
}

/// The position of a step of a way with whose reads the probe agrees. The first step of the way is tried before its key is made.
pub(crate) fn step_of_way<P: Probe>(
    steps: &KeyedItems<StoredStep>,
    firsts: &[usize],
    way: usize,
    cells: &[u16],
    probe: &P,
) -> Option<usize>
    requires keyed { AreKeyed steps.now }
    requires cells { ReadOnWay steps.now way (λ read. read ≡ cells.now) }
    requires covers { P.covers probe.now cells.now }
    ensures found { IfSome result (HoldsOfStep steps.now (IsOnWay way (P.agrees probe.now))) }
    ensures within { IfSome result (λ at. at < length steps.now) }
    ensures none { IfNone result (NoneIsOnWay steps.now way (P.agrees probe.now)) }
{
    match first_of_way(steps, firsts, way, probe) {
        Some(at) => Some(at),
        None => step_under(steps, probe.key(way, cells), way, probe),
    }
}

/// The position where the first step of a way is likely to stand, where such a step is there and the probe agrees with its reads.
fn first_of_way<P: Probe>(
    steps: &KeyedItems<StoredStep>,
    firsts: &[usize],
    way: usize,
    probe: &P,
) -> Option<usize>
    requires { ReadOnWay steps.now way (P.covers probe.now) }
    ensures found { IfSome result (HoldsOfStep steps.now (IsOnWay way (P.agrees probe.now))) }
    ensures within { IfSome result (λ at. at < length steps.now) }
{
    let at = *firsts.get(way)?;
    if at < steps.len() && is_step_of(steps.item(at), way, probe) {
        Some(at)
    } else {
        None
    }
}

/// The position of a step of a way with whose reads the probe agrees, among those with a key.
fn step_under<P: Probe>(
    steps: &KeyedItems<StoredStep>,
    key: u64,
    way: usize,
    probe: &P,
) -> Option<usize>
    requires { ReadOnWay steps.now way (P.covers probe.now) }
    ensures found { IfSome result (HoldsOfStep steps.now (IsOnWay way (P.agrees probe.now))) }
    ensures within { IfSome result (λ at. at < length steps.now) }
    ensures none { IfNone result (NoneIsOnWayUnder key steps.now way (P.agrees probe.now)) }
{
    let mut next = steps.newest(key);
    while let Some(at) = next {
        if is_step_of(steps.item(at), way, probe) {
            return Some(at);
        }
        next = steps.older(at);
    }
    None
}

/// Whether a step is of a way and the probe agrees with its reads.
fn is_step_of<P: Probe>(stored: &StoredStep, way: usize, probe: &P) -> bool
    requires { stored.now.way ≡ way → P.covers probe.now (cells_read stored.now.step.reads) }
    ensures { IsTrue result ↔ IsOnWay way (P.agrees probe.now) stored.now }
{
    stored.way == way && probe.agrees_with(stored.step.get().reads.as_slice())
}

/// Whether there is a step with this state and these reads.
pub(crate) fn is_stored(
    ways: &KeyedItems<KnownWay>,
    steps: &KeyedItems<StoredStep>,
    firsts: &[usize],
    state: &TaskState,
    reads: &[(u16, CellState)],
) -> bool
    requires { IsIndex ⟦<TaskState as Hash>⟧.hash_input ways.now steps.now }
    ensures { result ≡ has_record (records_of steps.now) state.now reads.now }
{
    match way_number(ways, state, reads) {
        Some(way) => is_stored_on(ways, steps, firsts, way, state, reads),
        None => false,
    }
}

/// Whether there is a step with this state and these reads, whose way has this number.
fn is_stored_on(
    ways: &KeyedItems<KnownWay>,
    steps: &KeyedItems<StoredStep>,
    firsts: &[usize],
    way: usize,
    state: &TaskState,
    reads: &[(u16, CellState)],
) -> bool
    requires index { IsIndex ⟦<TaskState as Hash>⟧.hash_input ways.now steps.now }
    requires way { keyed_item ways.now way ≡ Some (way_of state.now reads.now) }
    ensures { result ≡ has_record (records_of steps.now) state.now reads.now }
{
    let cells = ways.item(way).cells.as_slice();
    match step_of_way(steps, firsts, way, cells, &reads) {
        Some(_) => true,
        None => false,
    }
}

/// The position of the step with this state and these reads, whose way has this number.
fn position_stored(
    ways: &KeyedItems<KnownWay>,
    steps: &KeyedItems<StoredStep>,
    firsts: &[usize],
    way: usize,
    state: &TaskState,
    reads: &[(u16, CellState)],
) -> Option<usize>
    requires index { IsIndex ⟦<TaskState as Hash>⟧.hash_input ways.now steps.now }
    requires way { keyed_item ways.now way ≡ Some (way_of state.now reads.now) }
    ensures place { IfSome result (IsPlaceOfRecord (records_of steps.now) state.now reads.now) }
    ensures held { OnSome result (true ≡ has_record (records_of steps.now) state.now reads.now) }
    ensures none { IfNone result (false ≡ has_record (records_of steps.now) state.now reads.now) }
{
    let cells = ways.item(way).cells.as_slice();
    match step_of_way(steps, firsts, way, cells, &reads) {
        Some(at) => Some(at),
        None => None,
    }
}

/// Puts a step behind the others where none has its state and its reads, and answers where the one that has them stands. After
/// want of memory the steps are as they were.
pub(crate) fn store(
    alloc: Global,
    ways: &mut KeyedItems<KnownWay>,
    steps: &mut KeyedItems<StoredStep>,
    firsts: &mut Vec<usize>,
    step: &Shared<Record>,
) -> Result<usize, OutOfMemory>
    requires { IsIndex ⟦<TaskState as Hash>⟧.hash_input ways.old steps.old }
    ensures index { IsIndex ⟦<TaskState as Hash>⟧.hash_input ways.new steps.new }
    ensures stored { OnOk result (records_of steps.new ≡ with_record (records_of steps.old) step.now) }
    ensures place { IfOk result (IsPlaceOfRecord (records_of steps.new) step.now.before step.now.reads) }
    ensures unchanged { OnErr result (records_of steps.new ≡ records_of steps.old) }
{
    let way = way_taken(alloc, ways, step.get())?;
    note_first(firsts, way, steps.len())?;
    store_on(alloc, ways, steps, firsts.as_slice(), way, step)
}

/// Notes where the first step of a way is going to stand, where the way is new. No answer rests on it: it saves a search where a way
/// has one step, as most have.
fn note_first(firsts: &mut Vec<usize>, way: usize, at: usize) -> Result<(), OutOfMemory> {
    if firsts.len() <= way {
        firsts.resize(way.saturating_add(1), at)?;
    }
    Ok(())
}

/// Puts a step of the way of this number behind the others where none has its state and its reads.
fn store_on(
    alloc: Global,
    ways: &KeyedItems<KnownWay>,
    steps: &mut KeyedItems<StoredStep>,
    firsts: &[usize],
    way: usize,
    step: &Shared<Record>,
) -> Result<usize, OutOfMemory>
    requires index { IsIndex ⟦<TaskState as Hash>⟧.hash_input ways.now steps.old }
    requires way { keyed_item ways.now way ≡ Some (way_of_step step.now) }
    ensures index { IsIndex ⟦<TaskState as Hash>⟧.hash_input ways.now steps.new }
    ensures stored { OnOk result (records_of steps.new ≡ with_record (records_of steps.old) step.now) }
    ensures place { IfOk result (IsPlaceOfRecord (records_of steps.new) step.now.before step.now.reads) }
    ensures unchanged { OnErr result (records_of steps.new ≡ records_of steps.old) }
{
    let record = step.get();
    let reads = record.reads.as_slice();
    match position_stored(ways, steps, firsts, way, record.before.get(), reads) {
        Some(at) => Ok(at),
        None => add_step(alloc, ways, steps, way, step),
    }
}

/// Puts a step of the way of this number, which is new, behind the others.
fn add_step(
    alloc: Global,
    ways: &KeyedItems<KnownWay>,
    steps: &mut KeyedItems<StoredStep>,
    way: usize,
    step: &Shared<Record>,
) -> Result<usize, OutOfMemory>
    requires index { IsIndex ⟦<TaskState as Hash>⟧.hash_input ways.now steps.old }
    requires way { keyed_item ways.now way ≡ Some (way_of_step step.now) }
    requires new { false ≡ has_record (records_of steps.old) step.now.before step.now.reads }
    ensures index { IsIndex ⟦<TaskState as Hash>⟧.hash_input ways.now steps.new }
    ensures stored { OnOk result (records_of steps.new ≡ with_record (records_of steps.old) step.now) }
    ensures place { IfOk result (IsPlaceOfRecord (records_of steps.new) step.now.before step.now.reads) }
    ensures unchanged { OnErr result (records_of steps.new ≡ records_of steps.old) }
{
    let key = reads_key(way, step.get().reads.as_slice());
    let at = steps.len();
    let step = step.share()?;
    match steps.push(alloc, key, StoredStep { step, way }) {
        Ok(()) => Ok(at),
        Err(error) => Err(error),
    }
}

/// The position of the step from this state with whose reads a view of so many cells agrees. Each way from the state is tried once.
pub(crate) fn position_in_view(
    ways: &KeyedItems<KnownWay>,
    steps: &KeyedItems<StoredStep>,
    firsts: &[usize],
    count: usize,
    state: &TaskState,
    view: &Cells,
) -> Option<usize>
    requires index { IsIndex ⟦<TaskState as Hash>⟧.hash_input ways.now steps.now }
    requires count { count ≡ length view.now }
    ensures found { IfSome result (FitsAt steps.now state.now view.now) }
    ensures within { IfSome result (λ at. at < length steps.now) }
    ensures none { IfNone result (NoneFits steps.now state.now view.now) }
{
    position_under(ways, steps, firsts, state_key(state), count, state, view)
}

/// The position of the step from this state with whose reads a view of so many cells agrees, of the ways with a key.
fn position_under(
    ways: &KeyedItems<KnownWay>,
    steps: &KeyedItems<StoredStep>,
    firsts: &[usize],
    key: u64,
    count: usize,
    state: &TaskState,
    view: &Cells,
) -> Option<usize>
    requires index { IsIndex ⟦<TaskState as Hash>⟧.hash_input ways.now steps.now }
    requires count { count ≡ length view.now }
    ensures found { IfSome result (FitsAt steps.now state.now view.now) }
    ensures within { IfSome result (λ at. at < length steps.now) }
    ensures none { IfNone result (NoneFitsUnder key ways.now steps.now state.now view.now) }
{
    let mut next = ways.newest(key);
    while let Some(way) = next {
        match position_on(ways, steps, firsts, way, count, state, view) {
            Some(at) => return Some(at),
            None => next = ways.older(way),
        }
    }
    None
}

/// The position of the step of a way that is from this state and with whose reads the view agrees.
fn position_on(
    ways: &KeyedItems<KnownWay>,
    steps: &KeyedItems<StoredStep>,
    firsts: &[usize],
    way: usize,
    count: usize,
    state: &TaskState,
    view: &Cells,
) -> Option<usize>
    requires index { IsIndex ⟦<TaskState as Hash>⟧.hash_input ways.now steps.now }
    requires count { count ≡ length view.now }
    requires way { way < length ways.now }
    ensures found { IfSome result (FitsAt steps.now state.now view.now) }
    ensures within { IfSome result (λ at. at < length steps.now) }
    ensures none { IfNone result (FitsOn steps.now state.now view.now way → ⊥) }
{
    let taken = ways.item(way);
    let cells = taken.cells.as_slice();
    if taken.state.get().is_same(state) && are_within(cells, count) {
        step_of_way(steps, firsts, way, cells, view)
    } else {
        None
    }
}
