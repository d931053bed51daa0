ghost use Rattle.std.specs.Prelude.{◌≡◌, ◌<◌, ◌+◌, ◌^◌, ℕ, List, Option, [], set, length, is_some, true, if◌then◌else◌, nat_eq, IsTrue, IfOk, OnOk, OnErr};
ghost use Rattle.effect_cells.specs.Worth.{magnitude, in_front};
ghost use Rattle.effect_cells.specs.Cells.{accepts, committed_cells, verdict, AreInRange};
ghost use Rattle.effect_cells.specs.Pending.{with_pending, AreSmallPending};
ghost use Rattle.effect_cells.specs.Gathering.{AreBlank};
ghost use Rattle.effect_cells.specs.Gathered.{Gathered as Stand, listed_from, IsGathered, IsWhole, HasBegun, CanGather};
ghost use Rattle.effect_cells.specs.Touched.{touched_from};
ghost use Rattle.effect_cells.specs.declared.effects.Effect.{Effect as Change_};
ghost use Rattle.effect_cells.specs.declared.effects.CellState.{CellState as State};
ghost use Rattle.effect_cells.specs.declared.pending.Pending.{Pending as Waiting};
ghost use Rattle.effect_cells.specs.declared.trees.Tree.{Tree};

use crate::cells::OutOfRange;
use crate::committing::commit_pending;
use crate::effects::{CellState, Effect};
use crate::pending::{Pending, clear, gathered_with, nothing_pending};
use aerie_base::{List, OutOfMemory};
use std::alloc::Global;
use std::marker::Model;

/// The effects of a batch before they are on the cells, gathered from the last to the first. Whoever walks over a tree of tasks
/// from behind notes the clock as a task is entered, and gathers the task's own effects with that time: what was gathered since
/// then follows them, what was gathered earlier is beside them.
#[derive(Debug, Drop)]
pub struct Gathering {
    /// What is pending on each cell.
    pending: Vec<Pending>,
    /// The cells on which something is pending, in order.
    touched: Vec<u16>,
    /// How many effects were gathered.
    clock: u64,
}

impl Model for Gathering {
    ghost use Rattle.std.specs.Prelude.{◌≡◌};
    ghost use Rattle.effect_cells.specs.Gathered.{Gathered, listed_from};

    ghost Value = { Gathered };

    ghost view = { λ gathering. record { pending = gathering.pending.items; clock = gathering.clock } };

    ghost invariant = { λ gathering. gathering.touched.items ≡ listed_from 0 gathering.pending.items };
}

/// Lists a cell on which something comes to be pending, in its order, unless it is listed already.
fn touch(cell: u16, pending: &[Pending], touched: &mut Vec<u16>) -> Result<(), OutOfMemory>
    requires cell { cell < length pending.now }
    requires listed { touched.old.items ≡ listed_from 0 pending.now }
    ensures listed { OnOk result ((one : Waiting) → is_some one.effect ≡ true → touched.new.items ≡ listed_from 0 (set pending.now cell one)) }
    ensures unchanged { OnErr result (touched.new.items ≡ touched.old.items) }
{
    if pending[usize::from(cell)].effect.is_some() {
        return Ok(());
    }
    let place = touched.partition_point(|other| *other < cell);
    touched.insert(place, cell)?;
    Ok(())
}

impl Gathering {
    /// On no cells.
    pub(crate) fn none(alloc: Global) -> Gathering
        ensures { result.pending ≡ [] }
    {
        Gathering {
            pending: Vec::new(alloc),
            touched: Vec::new(alloc),
            clock: 0,
        }
    }

    /// Nothing is gathered on as many cells.
    pub(crate) fn new(alloc: Global, states: &[CellState]) -> Result<Gathering, OutOfMemory>
        ensures { IfOk result (HasBegun states.now) }
    {
        let pending = nothing_pending(alloc, states)?;
        let touched = Vec::with_capacity(alloc, states.len())?;
        Ok(Gathering {
            pending,
            touched,
            clock: 0,
        })
    }

    /// Whether it is on so many cells.
    pub(crate) fn is_on(&self, cells: usize) -> bool
        ensures { IsTrue result → length self.now.pending ≡ cells }
    {
        self.pending.len() == cells
    }

    /// The clock, by which one says later when a task was entered. It takes no memory.
    pub fn clock(&self) -> u64
        ensures { result ≡ self.now.clock }
    {
        self.clock
    }

    /// Gathers an effect of a task that was entered when the clock showed `entered_at`: it is before the effects of the task that
    /// were gathered, and beside what was pending when the task was entered. It fails where there is no memory, or where the clock
    /// is at its end.
    pub fn gather(&mut self, cell: u16, effect: &Effect, entered_at: u64) -> Result<(), OutOfMemory>
        requires { CanGather cell effect.now self.old }
        ensures { OnOk result ((cells : List State) (worth : ℕ → Option Change_) (size : ℕ) (before : Stand) →
            accepts cells cell effect.now ≡ true → before.clock ≡ entered_at → IsGathered cells worth size before self.old →
            IsGathered cells (λ on. if nat_eq cell on then in_front effect.now (worth on) else worth on) (magnitude effect.now + size) before self.new) }
    {
        let Some(next) = self.clock.checked_add(1) else {
            return Err(OutOfMemory);
        };
        touch(cell, self.pending.as_slice(), &mut self.touched)?;
        let at = usize::from(cell);
        self.pending[at] = gathered_with(&self.pending[at], effect, entered_at, self.clock);
        self.clock = next;
        Ok(())
    }

    /// The cells that are touched, in order.
    pub fn touched(&self, alloc: Global) -> Result<List<u16>, OutOfMemory>
        ensures { IfOk result (λ touched. (cells : List State) (tree : Tree) →
            IsWhole cells tree self.now → touched ≡ touched_from 0 tree cells) }
    {
        let touched = Vec::from_slice(alloc, self.touched.as_slice())?;
        Ok(List::from_vec(touched))
    }

    /// Puts what is pending on the cells, of which it looks at those that are touched alone. Nothing is pending then.
    pub(crate) fn commit_on(&mut self, states: &mut [CellState]) -> Result<(), OutOfRange>
        requires same { length self.old.pending ≡ length states.old }
        requires range { AreInRange states.old }
        requires small { AreSmallPending self.old.pending }
        ensures answer { result ≡ verdict (with_pending states.old self.old.pending) }
        ensures range { OnOk result (AreInRange states.new) }
        ensures committed { OnOk result (states.new ≡ with_pending states.old self.old.pending) }
        ensures unchanged { OnErr result (states.new ≡ states.old) }
        ensures blank { AreBlank self.new.pending }
    {
        let end = commit_pending(states, self.pending.as_mut_slice(), self.touched.as_slice());
        self.touched.clear();
        self.clock = 0;
        end
    }

    /// Nothing is pending any more.
    pub(crate) fn clear(&mut self)
        ensures { AreBlank self.new.pending }
    {
        clear(self.pending.as_mut_slice(), self.touched.as_slice());
        self.touched.clear();
        self.clock = 0;
    }
}
