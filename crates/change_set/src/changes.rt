//! In which cells and tasks two simulations differ.

ghost use Rattle.std.specs.Prelude.{◌≡◌, ◌↔◌, [], IsTrue, IfOk, OnOk, OnErr};
ghost use Rattle.change_set.specs.Differences.{notes_task, notes_any_read, touches_frame, touches_batch, touches_instant};
ghost use Rattle.change_set.specs.Differences.{NotesNoTask, NotesNothing, NotesCellAlone, NotesTaskAlone};

use crate::cell_flags::CellFlags;
use aerie_base::{List, OutOfMemory, Path};
use effect_cells::CellState;
use indexmap::IndexSet;
use run_data::{Frame, Instant};
use std::alloc::Global;
use std::marker::Model;

/// The cells and the tasks in which two simulations differ at a time. Each is noted as it comes to differ, and taken back as
/// it comes to agree, in a time that does not grow with what is noted. Contracts see a flag for each cell, and the paths of
/// the tasks.
#[derive(Drop)]
pub struct ChangeSet {
    cells: CellFlags,
    tasks: IndexSet<Path>,
}

impl Model for ChangeSet {
    ghost use Rattle.std.specs.Coded.{codes};
    ghost use Rattle.change_set.specs.Differences.{Differences};

    ghost Value = { Differences };

    ghost coded = { Prim.hlevel (codes) };

    ghost view = { λ set. record { cells = set.cells; tasks = set.tasks.keys } };
}

impl ChangeSet {
    /// Nothing is noted.
    pub fn new(alloc: Global) -> Result<ChangeSet, OutOfMemory>
        ensures { IfOk result (λ set. set ≡ record { cells = []; tasks = [] }) }
    {
        Ok(ChangeSet {
            cells: CellFlags::new(alloc)?,
            tasks: IndexSet::new(alloc),
        })
    }

    /// Notes a cell that differs, or takes it back. Nothing else changes. After want of memory nothing changes.
    pub fn note_cell(&mut self, cell: u16, differs: bool) -> Result<(), OutOfMemory>
        ensures noted { OnOk result (NotesCellAlone cell differs self.old self.new) }
        ensures tasks { self.new.tasks ≡ self.old.tasks }
        ensures refused { OnErr result (self.new ≡ self.old) }
    {
        self.cells.note(cell, differs)
    }

    /// Notes a task that differs, or takes it back. Nothing else changes. After want of memory nothing changes.
    pub fn note_task(
        &mut self,
        alloc: Global,
        path: &Path,
        differs: bool,
    ) -> Result<(), OutOfMemory>
        ensures noted { OnOk result (NotesTaskAlone path.now differs self.old self.new) }
        ensures cells { self.new.cells ≡ self.old.cells }
        ensures refused { OnErr result (self.new ≡ self.old) }
    {
        if !differs {
            let _there = self.tasks.swap_remove(path);
            return Ok(());
        }
        if self.has_task(path) {
            return Ok(());
        }
        match self.tasks.insert(path.copy(alloc)?) {
            Ok(_) => Ok(()),
            Err(_) => Err(OutOfMemory),
        }
    }

    /// Whether nothing is noted. It looks at nothing that is.
    pub fn is_empty(&self) -> bool
        ensures { IsTrue result ↔ NotesNothing self.now }
    {
        self.cells.is_empty() && self.has_no_task()
    }

    /// Whether no task is noted.
    fn has_no_task(&self) -> bool
        ensures { IsTrue result ↔ NotesNoTask self.now }
    {
        self.tasks.is_empty()
    }

    /// Whether a task is noted. Its path is hashed only where some task is.
    fn has_task(&self, path: &Path) -> bool
        ensures { result ≡ notes_task self.now path.now }
    {
        !self.tasks.is_empty() && self.tasks.contains(path)
    }

    /// Whether a noted cell is among those that were read.
    fn has_any_read(&self, reads: &[(u16, CellState)]) -> bool
        ensures { result ≡ notes_any_read self.now reads.now }
    {
        reads.iter().any(|read| self.cells.has(read.0))
    }

    /// Whether a frame read a noted cell or belongs to a noted task.
    fn touches_frame(&self, frame: &Frame) -> bool
        ensures { result ≡ touches_frame self.now frame.now }
    {
        self.has_any_read(frame.reads().as_slice()) || self.has_task(frame.path())
    }

    /// Whether this is so of a frame of a batch.
    fn touches_batch(&self, frames: &List<Frame>) -> bool
        ensures { result ≡ touches_batch self.now frames.now }
    {
        frames
            .as_slice()
            .iter()
            .any(|frame| self.touches_frame(frame))
    }

    /// Whether a frame of the old instant read a noted cell or belongs to a noted task. It takes no memory.
    pub fn touches(&self, old: &Instant) -> bool
        ensures { result ≡ touches_instant self.now old.now }
    {
        old.batches
            .as_slice()
            .iter()
            .any(|frames| self.touches_batch(frames))
    }
}
