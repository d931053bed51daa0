//! The cells as a step sees them: those of its view with its own effects, and which of them it read.

ghost use Rattle.std.specs.Prelude.{◌≡◌, ◌<◌, ◌≤◌, [], length, replicate, false, slice_get, IfOk, Some};
ghost use Rattle.effect_cells.specs.Cells.{emitted, IsSmallOn};
ghost use Rattle.task_step.specs.Overlays.{IsWrittenAt};
ghost use Rattle.task_step.specs.Sights.{seen_in};

use crate::read_flags::ReadFlags;
use crate::written_cells::WrittenCells;
use aerie_base::{CellRead, Fault, Look, OutOfMemory, Value};
use effect_cells::{CellState, Cells, Effect};
use std::alloc::Global;

/// The cells as a step sees them.
#[derive(Drop)]
pub(crate) struct Sight<'a> {
    /// The cells as the step began.
    pub view: &'a Cells,
    /// Those that the step wrote, as they are by now.
    pub written: WrittenCells,
    /// For each cell, whether it was read.
    pub read_flags: ReadFlags,
}

impl<'a> Sight<'a> {
    /// A view of so many cells, none of which was written or read yet.
    pub(crate) fn new(view: &'a Cells, cells: usize, written: WrittenCells) -> Sight<'a>
        requires cells { cells ≤ 256 }
        requires written { written ≡ [] }
        ensures view { result.view.now ≡ view.now }
        ensures written { result.written ≡ [] }
        ensures read_flags { result.read_flags ≡ replicate cells false }
    {
        Sight {
            view,
            written,
            read_flags: ReadFlags::none(cells),
        }
    }

    /// The state of a cell, as the step wrote it or else as it is in the view.
    pub(crate) fn state(&self, cell: u16) -> CellState
        requires { cell < length (seen_in self.now) }
        ensures { slice_get (seen_in self.now) cell ≡ Some result }
    {
        match self.written.state(cell) {
            Some(state) => state,
            None => self.view.state(cell),
        }
    }

    /// The cell is the step's own from here on: its place among those that the step wrote. Its state is copied at its first
    /// effect only, and no other cell's.
    pub(crate) fn own(&mut self, alloc: Global, cell: u16) -> Result<usize, OutOfMemory>
        requires cell { cell < length (seen_in self.old) }
        requires few { length self.old.view.now ≤ 256 }
        ensures view { self.new.view.now ≡ self.old.view.now }
        ensures read_flags { self.new.read_flags ≡ self.old.read_flags }
        ensures cells { seen_in self.new ≡ seen_in self.old }
        ensures place { IfOk result (λ place. IsWrittenAt self.new.written place cell) }
    {
        match self.written.place(cell) {
            Some(place) => Ok(place),
            None => {
                let state = self.view.state(cell);
                let place = self.written.add(alloc, cell, state)?;
                Ok(place)
            }
        }
    }

    /// An effect on a cell that is the step's own, at its place.
    pub(crate) fn change(&mut self, place: usize, cell: u16, effect: &Effect)
        requires place { IsWrittenAt self.old.written place cell }
        requires cell { cell < length (seen_in self.old) }
        requires small { IsSmallOn (slice_get (seen_in self.old) cell) effect.now }
        ensures view { self.new.view.now ≡ self.old.view.now }
        ensures read_flags { self.new.read_flags ≡ self.old.read_flags }
        ensures cells { seen_in self.new ≡ emitted (seen_in self.old) cell effect.now }
    {
        let state = self.written.at(place, cell).after(effect);
        self.written.set(place, cell, state);
    }
}

impl<'a> Look for Sight<'a> {
    ghost use Rattle.std.specs.Prelude.{List};
    ghost use Rattle.effect_cells.specs.declared.effects.CellState.{CellState};
    ghost use Rattle.effect_cells.specs.Reads.{kind_on, value_on};
    ghost use Rattle.task_step.specs.Overlays.{overlaid, written_state};
    ghost use Rattle.task_step.specs.ReadingCells.{are_readings};

    ghost kinds = { λ sight. kind_on (overlaid sight.view.now sight.written) };

    ghost values = { λ sight. value_on (overlaid sight.view.now sight.written) };

    ghost read_flags = { λ sight. sight.read_flags };

    ghost Unchanged = { List CellState × List CellState };

    ghost unchanged = { λ sight. (sight.view.now, overlaid sight.view.now sight.written) };

    ghost readings = { λ sight. are_readings (overlaid sight.view.now sight.written) };

    fn look(&mut self, read: CellRead) -> Result<Value, Fault> {
        let cell = read.cell();
        self.read_flags.note(cell);
        self.state(cell).read(read)
    }
}
