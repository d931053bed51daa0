//! What a step is searched by: reads that are equal, or a view that agrees with them.

ghost use Rattle.std.specs.Prelude.{◌≡◌, ◌↔◌, ℕ, ◌<◌, List, Some, length, slice_get, IsTrue};
ghost use Rattle.std.specs.List.{All, fold};
ghost use Rattle.effect_cells.specs.declared.effects.CellState.{CellState};
ghost use Rattle.run_data.specs.Records.{Agrees};
ghost use Rattle.record_book.specs.Ways.{IsKeyOf, cell_written, cells_read, step_key, value_written};
ghost use Rattle.std.specs.Hash.FoldHasher as folding;

use aerie_base::{PlainData, Value, same_list};
use effect_cells::{CellState, Cells};
use std::hash::{FoldHasher, Hash, Hasher};

/// What has a state for each cell that a step may have read.
pub(crate) trait Probe {
    ghost use Rattle.std.specs.Prelude.{ℕ, List};
    ghost use Rattle.effect_cells.specs.declared.effects.CellState.{CellState};

    /// Whether it has the states that these reads have.
    ghost agrees: { Self → List (ℕ × CellState) → Type 0 };
    /// Whether it has a state for each of these cells.
    ghost covers: { Self → List ℕ → Type 0 };

    /// The key of the steps of a way that have its states at these cells.
    fn key(&self, way: usize, cells: &[u16]) -> u64
        requires { covers self.now cells.now }
        ensures { IsKeyOf way cells.now (agrees self.now) result };

    /// Whether it has the states of these reads.
    fn agrees_with(&self, reads: &[(u16, CellState)]) -> bool
        requires { covers self.now (cells_read reads.now) }
        ensures { IsTrue result ↔ agrees self.now reads.now };
}

impl Probe for &[(u16, CellState)] {
    ghost agrees = { λ reads others. reads.now ≡ others };

    ghost covers = { λ reads cells. Unit {0} };

    fn key(&self, way: usize, _cells: &[u16]) -> u64 {
        reads_key(way, *self)
    }

    fn agrees_with(&self, reads: &[(u16, CellState)]) -> bool {
        same_list(*self, reads)
    }
}

impl Probe for Cells {
    ghost agrees = { λ view reads. Agrees view reads };

    ghost covers = { λ view cells. All (λ cell. cell < length view) cells };

    fn key(&self, way: usize, cells: &[u16]) -> u64 {
        view_key(way, cells, self)
    }

    fn agrees_with(&self, reads: &[(u16, CellState)]) -> bool {
        view_agrees(self, reads)
    }
}

/// The key of the step of a way that has these reads.
pub(crate) fn reads_key(way: usize, reads: &[(u16, CellState)]) -> u64
    ensures { result ≡ step_key way reads.now }
{
    let mut hasher = FoldHasher::default();
    hasher.write_usize(way);
    for read in reads {
        write_state(&mut hasher, &read.1);
    }
    hasher.finish()
}

/// The key of the steps of a way that read these cells with the states of a view.
fn view_key(way: usize, cells: &[u16], view: &Cells) -> u64
    requires { All (λ cell. cell < length view.now) cells.now }
    ensures { IsKeyOf way cells.now (Agrees view.now) result }
{
    let mut hasher = FoldHasher::default();
    hasher.write_usize(way);
    for cell in cells {
        write_state(&mut hasher, &view.state(*cell));
    }
    hasher.finish()
}

/// Whether a view has the states of reads.
fn view_agrees(view: &Cells, reads: &[(u16, CellState)]) -> bool
    requires { All (λ cell. cell < length view.now) (cells_read reads.now) }
    ensures { IsTrue result ↔ Agrees view.now reads.now }
{
    for read in reads {
        if !has_read(view, read) {
            return false;
        }
    }
    true
}

/// Whether a view has the state of a read.
fn has_read(view: &Cells, read: &(u16, CellState)) -> bool
    requires { read.now.0 < length view.now }
    ensures { IsTrue result ↔ (slice_get view.now read.now.0 ≡ Some read.now.1) }
{
    view.state(read.0).equals(&read.1)
}

/// Writes the state of a cell into a hash.
fn write_state(hasher: &mut FoldHasher, state: &CellState)
    ensures { hasher.new ≡ fold folding.write hasher.old (cell_written state.now) }
{
    match state {
        CellState::Counter(number) => hasher.write_i128(*number),
        CellState::Register { value, .. } => write_value(hasher, value),
        CellState::Volume { volume, rate } => {
            hasher.write_i128(*volume);
            hasher.write_i128(*rate);
        }
    }
}

/// Writes the value of a register into a hash.
fn write_value(hasher: &mut FoldHasher, value: &Value)
    ensures { hasher.new ≡ fold folding.write hasher.old (value_written value.now) }
{
    match value {
        Value::Int(number) => hasher.write_i64(number.get()),
        Value::Truth(truth) => truth.hash(hasher),
        Value::Variant { number, .. } => hasher.write_u16(*number),
    }
}
