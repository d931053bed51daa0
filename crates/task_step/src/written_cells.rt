//! The cells that a step wrote.

ghost use Rattle.std.specs.Prelude.{◌≡◌, ◌<◌, ℕ, [], length, slice_get, slice_set, Some, None, IfOk, IfSome, OnOk, OnErr};
ghost use Rattle.effect_cells.specs.declared.effects.CellState.{CellState as State};
ghost use Rattle.task_step.specs.Overlays.{written_state, Puts, IsWrittenAt, ArePlaced, AreOnce};

use aerie_base::OutOfMemory;
use effect_cells::CellState;
use std::alloc::Global;
use std::marker::Model;

/// The most cells of a model.
const MOST_CELLS: usize = 256;

/// So many cells are searched one by one. Where more were written they have a table.
const FEW_CELLS: usize = 8;

/// The cells that a step wrote, each once with its state. A few are searched from the first on, and more are found by a table,
/// so that a call takes the same time however many there are. Contracts see the cells with their states.
#[derive(Drop)]
pub(crate) struct WrittenCells {
    /// The cells in the order in which they were first written.
    cells: Vec<(u16, CellState)>,
    /// No item while they are few, and else an item for each cell of a model: of a written cell its place in that list, of
    /// another any number.
    places: Vec<u8>,
}

impl Model for WrittenCells {
    ghost use Rattle.std.specs.Prelude.{List, ℕ};
    ghost use Rattle.effect_cells.specs.declared.effects.CellState.{CellState};
    ghost use Rattle.task_step.specs.Overlays.{HavePlaces};

    ghost Value = { List (ℕ × CellState) };

    ghost view = { λ written. written.cells.items };

    ghost invariant = { λ written. HavePlaces written.cells.items written.places.items };
}

/// Notes the place of a cell in a table; where there is none, nothing is noted.
fn note_place(table: &mut Vec<u8>, cell: u16, place: usize)
    requires { place < 256 }
    ensures { table.new.items ≡ slice_set table.old.items cell place }
{
    let at = usize::from(cell);
    if at < table.len() {
        table[at] = place as u8;
    }
}

/// A table of the places of cells.
fn table_of(alloc: Global, cells: &[(u16, CellState)]) -> Result<Vec<u8>, OutOfMemory>
    requires { AreOnce cells.now }
    ensures { IfOk result (λ table. ArePlaced cells.now table.items) }
{
    let mut table = Vec::from_elem(alloc, 0, MOST_CELLS)?;
    for place in 0..cells.len() {
        note_place(&mut table, cells[place].0, place);
    }
    Ok(table)
}

/// The place of a cell, by a search from the first on.
fn search(cells: &[(u16, CellState)], cell: u16) -> Option<usize>
    ensures there { IfSome result (λ place. IsWrittenAt cells.now place cell) }
    ensures none { result ≡ None → written_state cell cells.now ≡ None }
{
    for place in 0..cells.len() {
        if cells[place].0 == cell {
            return Some(place);
        }
    }
    None
}

/// The place of a cell, by a table.
fn place_in(cells: &[(u16, CellState)], places: &[u8], cell: u16) -> Option<usize>
    requires { ArePlaced cells.now places.now }
    ensures there { IfSome result (λ place. IsWrittenAt cells.now place cell) }
    ensures none { result ≡ None → written_state cell cells.now ≡ None }
{
    let at = usize::from(cell);
    if at >= MOST_CELLS {
        return None;
    }
    let place = usize::from(places[at]);
    if place >= cells.len() {
        return None;
    }
    if cells[place].0 != cell {
        return None;
    }
    Some(place)
}

impl WrittenCells {
    /// No cell was written. It takes no memory of its own yet.
    pub(crate) fn none(alloc: Global) -> WrittenCells
        ensures { result ≡ [] }
    {
        WrittenCells {
            cells: Vec::new(alloc),
            places: Vec::new(alloc),
        }
    }

    /// Forgets what was written, and keeps its memory.
    pub(crate) fn clear(&mut self)
        ensures { self.new ≡ [] }
    {
        self.cells.clear();
        self.places.clear();
    }

    /// The place of a cell among those that were written.
    pub(crate) fn place(&self, cell: u16) -> Option<usize>
        ensures there { IfSome result (λ place. IsWrittenAt self.now place cell) }
        ensures none { result ≡ None → written_state cell self.now ≡ None }
    {
        if self.places.is_empty() {
            search(self.cells.as_slice(), cell)
        } else {
            place_in(self.cells.as_slice(), self.places.as_slice(), cell)
        }
    }

    /// The state of a cell that was written, at its place.
    pub(crate) fn at(&self, place: usize, cell: u16) -> CellState
        requires { IsWrittenAt self.now place cell }
        ensures { written_state cell self.now ≡ Some result }
    {
        let _ = cell;
        self.cells[place].1
    }

    /// The state of a cell, where it was written.
    pub(crate) fn state(&self, cell: u16) -> Option<CellState>
        ensures { result ≡ written_state cell self.now }
    {
        match self.place(cell) {
            Some(place) => Some(self.cells[place].1),
            None => None,
        }
    }

    /// Makes the table, if the cells are no longer few.
    fn grow(&mut self, alloc: Global) -> Result<(), OutOfMemory>
        ensures { self.new ≡ self.old }
    {
        if self.cells.len() == FEW_CELLS {
            self.places = table_of(alloc, self.cells.as_slice())?;
        }
        Ok(())
    }

    /// Writes a cell that was not written before, and gives its place.
    pub(crate) fn add(
        &mut self,
        alloc: Global,
        cell: u16,
        state: CellState,
    ) -> Result<usize, OutOfMemory>
        requires cell { cell < 256 }
        requires fresh { written_state cell self.old ≡ None }
        ensures added { OnOk result (Puts cell state self.old self.new) }
        ensures place { IfOk result (λ place. IsWrittenAt self.new place cell) }
        ensures unchanged { OnErr result (self.new ≡ self.old) }
    {
        self.grow(alloc)?;
        let place = self.cells.len();
        self.cells.push((cell, state))?;
        note_place(&mut self.places, cell, place);
        Ok(place)
    }

    /// Writes a cell that was written before, at its place.
    pub(crate) fn set(&mut self, place: usize, cell: u16, state: CellState)
        requires { IsWrittenAt self.old place cell }
        ensures { Puts cell state self.old self.new }
    {
        self.cells[place].1 = state;
    }
}
