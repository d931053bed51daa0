//! Which instants of a run touch a cell. An instant that touches none of a resource's cells leaves its segment as it is.

ghost use Rattle.std.specs.Prelude.{◌≡◌, [], IsTrue, length, slice_get, IfOk, OnOk};
ghost use Rattle.aerie_base.specs.models.ValidModel.{valid_model};
ghost use Rattle.run_data.specs.Fresh.{IsFresh};
ghost use Rattle.profiles.specs.States.{RiseFrom};
ghost use Rattle.profiles.specs.Touches.{AreTouching, HasNotedPosition, merge, positions_behind_first, positions_from, positions_if, positions_read, position_pushed_at};

use crate::runs::{can_be_followed, instant_at};
use aerie_base::{List, Model, Operand, OutOfMemory, Term};
use effect_cells::CellState;
use run_data::Run;
use std::alloc::Global;

/// Puts a position behind those of a cell, if there is such a cell.
fn note_cell(by_cell: &mut Vec<List<usize>>, cell: u16, at: usize) -> Result<(), OutOfMemory>
    ensures { OnOk result (by_cell.new.items ≡ position_pushed_at by_cell.old.items cell at) }
{
    let cell = usize::from(cell);
    if cell < by_cell.len() {
        by_cell[cell].push(at)?;
    }
    Ok(())
}

/// Puts the position of an instant behind those of each cell that it touches.
fn note_instant(
    by_cell: &mut Vec<List<usize>>,
    changed: &[(u16, CellState)],
    at: usize,
) -> Result<(), OutOfMemory>
    ensures { OnOk result (RiseFrom 0 changed.now → HasNotedPosition changed.now at by_cell.old.items by_cell.new.items) }
{
    for entry in changed {
        note_cell(by_cell, entry.0, at)?;
    }
    Ok(())
}

/// No positions, for so many cells.
fn untouched(alloc: Global, cells: usize) -> Result<Vec<List<usize>>, OutOfMemory>
    ensures { IfOk result (λ by_cell. AreTouching [] cells by_cell.items) }
{
    let mut by_cell = Vec::with_capacity(alloc, cells)?;
    for _ in 0..cells {
        by_cell.push(List::new(alloc))?;
    }
    Ok(by_cell)
}

/// By cell of the model, the positions of the instants of a run that touch it, in order: one pass over what the instants changed.
pub(crate) fn touches(
    alloc: Global,
    model: &Model,
    run: &Run,
) -> Result<Vec<List<usize>>, OutOfMemory>
    requires valid { IsTrue (valid_model model.now) }
    requires fresh { IsFresh model.now run.now.plan run.now.bound run.now }
    ensures { IfOk result (λ by_cell. AreTouching run.now.instants (length model.now.cells) by_cell.items) }
{
    can_be_followed(model, run);
    let mut by_cell = untouched(alloc, model.cells().len())?;
    let instants = run.instants.as_slice();
    for at in 0..instants.len() {
        note_instant(
            &mut by_cell,
            instant_at(instants, at).changed.as_slice(),
            at,
        )?;
    }
    Ok(by_cell)
}

/// The positions of the instants that touch a cell.
pub(crate) fn positions_of(by_cell: &[List<usize>], cell: u16) -> &[usize]
    ensures { result.now ≡ positions_if (slice_get by_cell.now cell) }
{
    match by_cell.get(usize::from(cell)) {
        Some(positions) => positions.as_slice(),
        None => &[],
    }
}

/// Two lists of positions in order, as one without repetition.
fn merged(alloc: Global, one: &[usize], other: &[usize]) -> Result<Vec<usize>, OutOfMemory>
    ensures { IfOk result (λ merged. merged.items ≡ merge one.now other.now) }
{
    let mut merged = Vec::new(alloc);
    let mut at = 0;
    let mut beside = 0;
    while at < one.len() && beside < other.len() {
        let first = one[at];
        let second = other[beside];
        merged.push(first.min(second))?;
        at += usize::from(first <= second);
        beside += usize::from(second <= first);
    }
    merged.extend_from_slice(&one[at..])?;
    merged.extend_from_slice(&other[beside..])?;
    Ok(merged)
}

/// Puts the positions of the cell that a term reads among others.
fn with_term(
    alloc: Global,
    by_cell: &[List<usize>],
    positions: &[usize],
    term: &Term,
) -> Result<Vec<usize>, OutOfMemory>
    ensures { IfOk result (λ all. all.items ≡ merge positions.now (positions_read by_cell.now term.now.operand)) }
{
    match term.operand {
        Operand::Read(read) => merged(alloc, positions, positions_of(by_cell, read.cell())),
        Operand::Local(_) => merged(alloc, positions, &[]),
    }
}

/// The positions of the instants that touch a cell which one of the terms reads.
pub(crate) fn positions_of_terms(
    alloc: Global,
    by_cell: &[List<usize>],
    terms: &[Term],
) -> Result<Vec<usize>, OutOfMemory>
    ensures { IfOk result (λ all. all.items ≡ positions_from [] by_cell.now terms.now) }
{
    let mut all = Vec::new(alloc);
    for term in terms {
        all = with_term(alloc, by_cell, all.as_slice(), term)?;
    }
    Ok(all)
}

/// The positions behind that of the first instant.
pub(crate) fn behind_first(positions: &[usize]) -> &[usize]
    ensures { result.now ≡ positions_behind_first positions.now }
{
    match positions.first() {
        Some(0) => &positions[1..],
        _ => positions,
    }
}
