//! The last change of each cell.

ghost use Rattle.std.specs.Prelude.{◌≡◌, ◌↔◌, ◌<◌, ℕ, None, Some, IsTrue, IfOk, replicate, slice_set};
ghost use Rattle.resimulate.specs.LastChanges.{ChangeAtTime, ChangeInInstants, SameLastChanges};

use aerie_base::{OutOfMemory, Shared, Time};
use effect_cells::CellState;
use run_data::Instant;
use std::alloc::Global;

/// When a cell changed last and to which state, if it did.
type LastChange = Option<(Time, CellState)>;

/// A cell changed, if it is one of these.
fn note_change(last: &mut Vec<LastChange>, time: Time, cell: u16, state: CellState)
    ensures { last.new.items ≡ slice_set last.old.items cell (Some (time, state)) }
{
    let at = usize::from(cell);
    if at < last.len() {
        last[at] = Some((time, state));
    }
}

/// The cells that changed at a time.
fn note_changed(last: &mut Vec<LastChange>, time: Time, changed: &[(u16, CellState)])
    ensures { ChangeAtTime time changed.now last.old.items last.new.items }
{
    for one in changed {
        note_change(last, time, one.0, one.1);
    }
}

/// The cells that changed in some instants.
fn note_instants(last: &mut Vec<LastChange>, instants: &[Shared<Instant>])
    ensures { ChangeInInstants instants.now last.old.items last.new.items }
{
    for instant in instants {
        let instant = instant.get();
        note_changed(last, instant.time, instant.changed.as_slice());
    }
}

/// The last change of each of so many cells.
fn last_changes(
    alloc: Global,
    cells: usize,
    instants: &[Shared<Instant>],
) -> Result<Vec<LastChange>, OutOfMemory>
    ensures { IfOk result (λ last. ChangeInInstants instants.now (replicate cells None) last.items) }
{
    let mut last = Vec::with_capacity(alloc, cells)?;
    last.resize(cells, None)?;
    note_instants(&mut last, instants);
    Ok(last)
}

/// Whether two changes are the same.
fn is_same(change: LastChange, other: LastChange) -> bool
    ensures { IsTrue result ↔ (change ≡ other) }
{
    change == other
}

/// Whether all of these changes are the same.
fn are_same(last: &[LastChange], others: &[LastChange]) -> bool
    ensures { IsTrue result → last.now ≡ others.now }
{
    if last.len() != others.len() {
        return false;
    }
    for at in 0..last.len() {
        if !is_same(last[at], others[at]) {
            return false;
        }
    }
    true
}

/// Whether the last change of each of so many cells is the same in two runs.
pub(crate) fn have_same_changes(
    alloc: Global,
    cells: usize,
    instants: &[Shared<Instant>],
    others: &[Shared<Instant>],
) -> Result<bool, OutOfMemory>
    ensures { IfOk result (λ yes. IsTrue yes → SameLastChanges cells instants.now others.now) }
{
    let last = last_changes(alloc, cells, instants)?;
    let other = last_changes(alloc, cells, others)?;
    Ok(are_same(last.as_slice(), other.as_slice()))
}
