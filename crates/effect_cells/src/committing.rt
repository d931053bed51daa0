ghost use Rattle.std.specs.Prelude.{◌≡◌, ◌<◌, ◌+◌, ◌^◌, ℕ, Option, true, length, IsTrue, IsFalse, OnOk, OnErr};
ghost use Rattle.effect_cells.specs.Sums.{sum_limit};
ghost use Rattle.effect_cells.specs.Worth.{magnitude_of, magnitude_if_any, worth_of};
ghost use Rattle.effect_cells.specs.States.{applied_if_any, is_in_range};
ghost use Rattle.effect_cells.specs.Pending.{with_pending, AreSmallPending};
ghost use Rattle.effect_cells.specs.Folded.{folded_worth, folded_part_worth, folded_magnitude, folded_part_magnitude, folded_fits, folded_part_fits};
ghost use Rattle.effect_cells.specs.Gathering.{AreBlank};
ghost use Rattle.effect_cells.specs.Gathered.{Gathered as Stand, IsReady, IsGathered, IsWhole, HasRoom};
ghost use Rattle.effect_cells.specs.TouchedCells.{Touches, lower};
ghost use Rattle.effect_cells.specs.Cells.{accepts, committed_cells, first_out, fits_cells, verdict, AreInRange};
ghost use Rattle.effect_cells.specs.declared.effects.Effect.{Effect as Change};

use crate::cells::OutOfRange;
use crate::effects::{CellState, Effect};
use crate::gathering::Gathering;
use crate::pending::{Pending, clear, nothing};
use crate::states::{applied, is_in_range};
use crate::trees::{Part, Tree};
use crate::worths::worth;
use aerie_base::OutOfMemory;

/// Puts the effects of a tree on the cells. It takes a time in the order of the tree's size, whatever the number of cells,
/// where there is room to gather them.
pub(crate) fn commit_tree(
    tree: &Tree,
    states: &mut [CellState],
    room: &mut Gathering,
) -> Result<(), OutOfRange>
    requires range { AreInRange states.old }
    requires kinds { fits_cells states.old tree.now ≡ true }
    requires small { magnitude_of tree.now < sum_limit }
    requires cells { length states.old < 2 ^ 16 }
    requires blank { AreBlank room.old.pending }
    ensures answer { result ≡ verdict (committed_cells states.old tree.now) }
    ensures range { OnOk result (AreInRange states.new) }
    ensures committed { OnOk result (states.new ≡ committed_cells states.old tree.now) }
    ensures unchanged { OnErr result (states.new ≡ states.old) }
    ensures blank { AreBlank room.new.pending }
{
    if gather(tree, states, room) {
        room.commit_on(states)
    } else {
        commit_worths(tree, states)
    }
}

/// Gathers the effects of a tree, where nothing is pending. Whether there was room; where there was none, nothing is pending.
fn gather(tree: &Tree, states: &[CellState], room: &mut Gathering) -> bool
    requires kinds { fits_cells states.now tree.now ≡ true }
    requires small { magnitude_of tree.now < sum_limit }
    requires blank { AreBlank room.old.pending }
    ensures whole { IsTrue result → IsWhole states.now tree.now room.new }
    ensures blank { IsFalse result → AreBlank room.new.pending }
{
    if !room.is_on(states.len()) {
        return false;
    }
    if gather_tree(tree, states, room).is_ok() {
        return true;
    }
    room.clear();
    false
}

/// Gathers the effects of a tree, from the last to the first.
#[cycle(gather)]
fn gather_tree(
    tree: &Tree,
    states: &[CellState],
    gathering: &mut Gathering,
) -> Result<(), OutOfMemory>
    requires kinds { folded_fits (accepts states.now) tree.now ≡ true }
    requires ready { IsReady states.now gathering.old }
    requires room { HasRoom (folded_magnitude tree.now) gathering.old }
    ensures { OnOk result (IsGathered states.now (folded_worth tree.now) (folded_magnitude tree.now) gathering.old gathering.new) }
{
    let entered_at = gathering.clock();
    let parts = tree.items.as_slice();
    let mut left = parts.len();
    while left > 0 {
        left -= 1;
        gather_part(&parts[left], states, entered_at, gathering)?;
    }
    Ok(())
}

/// Gathers a part of a tree that was entered when the clock showed `entered_at`.
#[cycle(gather)]
fn gather_part(
    part: &Part,
    states: &[CellState],
    entered_at: u64,
    gathering: &mut Gathering,
) -> Result<(), OutOfMemory>
    requires kinds { folded_part_fits (accepts states.now) part.now ≡ true }
    requires ready { IsReady states.now gathering.old }
    requires room { HasRoom (folded_part_magnitude part.now) gathering.old }
    ensures { OnOk result ((before : Stand) (behind : ℕ → Option Change) (size : ℕ) →
        before.clock ≡ entered_at → IsGathered states.now behind size before gathering.old →
        IsGathered states.now (λ cell. folded_part_worth part.now cell (behind cell)) (folded_part_magnitude part.now + size) before gathering.new) }
{
    match part {
        Part::Emit { cell, effect } => gathering.gather(*cell, effect, entered_at),
        Part::Child(child) => gather_tree(child, states, gathering),
    }
}

/// Puts what is pending on the cells, of which it looks at those that are touched alone.
pub(crate) fn commit_pending(
    states: &mut [CellState],
    pending: &mut [Pending],
    touched: &[u16],
) -> Result<(), OutOfRange>
    requires same { length pending.old ≡ length states.old }
    requires range { AreInRange states.old }
    requires small { AreSmallPending pending.old }
    requires touches { Touches touched.now pending.old }
    ensures answer { result ≡ verdict (with_pending states.old pending.old) }
    ensures range { OnOk result (AreInRange states.new) }
    ensures committed { OnOk result (states.new ≡ with_pending states.old pending.old) }
    ensures unchanged { OnErr result (states.new ≡ states.old) }
    ensures blank { AreBlank pending.new }
{
    match first_out(states, pending, touched) {
        None => {
            put_pending(states, pending, touched);
            Ok(())
        }
        Some(cell) => {
            clear(pending, touched);
            Err(OutOfRange { cell })
        }
    }
}

/// The first cell that would leave its range.
fn first_out(states: &[CellState], pending: &[Pending], touched: &[u16]) -> Option<u16>
    requires same { length pending.now ≡ length states.now }
    requires range { AreInRange states.now }
    requires small { AreSmallPending pending.now }
    requires touches { Touches touched.now pending.now }
    ensures { result ≡ first_out (with_pending states.now pending.now) }
{
    let mut first: Option<u16> = None;
    for cell in touched {
        let at = usize::from(*cell);
        let good = is_in_range(&applied_pending(&states[at], &pending[at]));
        first = lower(first, *cell, good);
    }
    first
}

/// The lowest cell so far that is not good, with one more cell.
fn lower(first: Option<u16>, cell: u16, good: bool) -> Option<u16>
    ensures { result ≡ lower first cell good }
{
    if good {
        return first;
    }
    match first {
        None => Some(cell),
        Some(other) => Some(other.min(cell)),
    }
}

/// A state that is in range with what is pending applied.
fn applied_pending(state: &CellState, pending: &Pending) -> CellState
    requires range { is_in_range state.now ≡ true }
    requires small { magnitude_if_any pending.now.effect < sum_limit }
    ensures { result ≡ applied_if_any state.now pending.now.effect }
{
    applied_if_any(state, &pending.effect)
}

/// A state that is in range with an effect applied, where there is one.
fn applied_if_any(state: &CellState, effect: &Option<Effect>) -> CellState
    requires range { is_in_range state.now ≡ true }
    requires small { magnitude_if_any effect.now < sum_limit }
    ensures { result ≡ applied_if_any state.now effect.now }
{
    match effect {
        None => *state,
        Some(effect) => applied(state, effect),
    }
}

/// Each cell with what is pending applied, where each stays in range. Nothing is pending then.
fn put_pending(states: &mut [CellState], pending: &mut [Pending], touched: &[u16])
    requires same { length pending.old ≡ length states.old }
    requires range { AreInRange states.old }
    requires good { AreInRange (with_pending states.old pending.old) }
    requires small { AreSmallPending pending.old }
    requires touches { Touches touched.now pending.old }
    ensures committed { states.new ≡ with_pending states.old pending.old }
    ensures blank { AreBlank pending.new }
{
    for cell in touched {
        let at = usize::from(*cell);
        states[at] = applied_pending(&states[at], &pending[at]);
        pending[at] = nothing();
    }
}

/// Puts the effects of a tree on the cells where there is no room to gather them, as for cells that were copied, or for a
/// tree with more effects than the clock counts: in two walks over the tree for each cell.
fn commit_worths(tree: &Tree, states: &mut [CellState]) -> Result<(), OutOfRange>
    requires range { AreInRange states.old }
    requires small { magnitude_of tree.now < sum_limit }
    requires cells { length states.old < 2 ^ 16 }
    ensures answer { result ≡ verdict (committed_cells states.old tree.now) }
    ensures range { OnOk result (AreInRange states.new) }
    ensures committed { OnOk result (states.new ≡ committed_cells states.old tree.now) }
    ensures unchanged { OnErr result (states.new ≡ states.old) }
{
    check_worths(tree, states)?;
    put_worths(tree, states);
    Ok(())
}

/// Whether all cells are in range with the worth of the tree on them applied.
fn check_worths(tree: &Tree, states: &[CellState]) -> Result<(), OutOfRange>
    requires range { AreInRange states.now }
    requires small { magnitude_of tree.now < sum_limit }
    requires cells { length states.now < 2 ^ 16 }
    ensures { result ≡ verdict (committed_cells states.now tree.now) }
{
    for at in 0..states.len() {
        if !is_in_range(&with_worth(tree, &states[at], at as u16)) {
            return Err(OutOfRange { cell: at as u16 });
        }
    }
    Ok(())
}

/// Each cell with the worth of the tree on it applied.
fn put_worths(tree: &Tree, states: &mut [CellState])
    requires range { AreInRange states.old }
    requires small { magnitude_of tree.now < sum_limit }
    requires cells { length states.old < 2 ^ 16 }
    ensures { states.new ≡ committed_cells states.old tree.now }
{
    for at in 0..states.len() {
        states[at] = with_worth(tree, &states[at], at as u16);
    }
}

/// The state of a cell that is in range with the worth of the tree on it applied.
fn with_worth(tree: &Tree, state: &CellState, cell: u16) -> CellState
    requires range { is_in_range state.now ≡ true }
    requires small { magnitude_of tree.now < sum_limit }
    ensures { result ≡ applied_if_any state.now (worth_of tree.now cell) }
{
    applied_if_any(state, &worth(tree, cell))
}
