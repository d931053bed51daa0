ghost use Rattle.std.specs.Prelude.{◌≡◌, ◌<◌, ◌^◌, length, slice_get, IsTrue, Some, OnOk, OnErr, IfOk};
ghost use Rattle.effect_cells.specs.Sums.{sum_limit};
ghost use Rattle.effect_cells.specs.Worth.{magnitude_of};
ghost use Rattle.effect_cells.specs.Gathered.{IsWhole, IsSomeTree, HasBegun};
ghost use Rattle.effect_cells.specs.declared.trees.Tree.{Tree};
ghost use Rattle.effect_cells.specs.Cells.{initial, fits_cells, committed_cells, passed, emitted, IsSmallOn, verdict, AreInRange};

use crate::committing::commit_tree;
use crate::effects::{CellState, Effect};
use crate::gathering::Gathering;
use crate::passing::{check_later, pass_each};
use crate::starts::first_states;
use crate::states::applied;
use crate::trees::Tree;
use aerie_base::{Model, OutOfMemory, Time};
use std::alloc::Global;
use std::mem;
use thiserror::Error;

/// A cell would leave its range: the first such cell, counted from 0 in the order of the model.
#[derive(Clone, Copy, Debug, PartialEq, Eq, Drop, Error)]
#[error("cell {cell} would leave its range")]
pub struct OutOfRange {
    /// The cell.
    pub cell: u16,
}

/// The cells of a model. Contracts see them as the list of their states, in the order of the model.
#[derive(Debug, Drop)]
pub struct Cells {
    states: Vec<CellState>,
    /// Room to gather what a commit is going to do, where nothing is pending; a copy has none.
    room: Gathering,
}

impl std::marker::Model for Cells {
    ghost use Rattle.std.specs.Prelude.{List, length, ◌≡◌, ◌<◌, ◌^◌};
    ghost use Rattle.effect_cells.specs.declared.effects.CellState.{CellState};
    ghost use Rattle.effect_cells.specs.Gathering.{AreBlank};

    ghost Value = { List CellState };

    ghost view = { λ cells. cells.states.items };

    ghost invariant = { λ cells. (length cells.states.items < 2 ^ 16) × AreBlank cells.room.pending };
}

impl Cells {
    /// The cells of the model as they are declared.
    #[tactic(auto, using(crate::proofs::ModelCells::model_begins, crate::proofs::ModelCells::few_cells))]
    pub fn initial(alloc: Global, model: &Model) -> Result<Cells, OutOfMemory>
        ensures value { IfOk result (λ cells. cells ≡ initial model.now) }
        ensures range { IfOk result (λ cells. AreInRange cells) }
    {
        let starts = model.cells();
        let states = first_states(alloc, starts)?;
        let room = Gathering::new(alloc, states.as_slice())?;
        Ok(Cells { states, room })
    }

    /// The state of the cell. It takes no memory.
    pub fn state(&self, cell: u16) -> CellState
        requires { cell < length self.now }
        ensures { slice_get self.now cell ≡ Some result }
    {
        self.states[cell as usize]
    }

    /// Puts the effects of a batch on the cells: each becomes its state with the worth of the tree on it applied. Where
    /// a cell would leave its range, the cells stay as they are and the first such cell is named. It takes no memory, and a
    /// time in the order of the tree's size, whatever the number of cells.
    pub fn commit(&mut self, tree: &Tree) -> Result<(), OutOfRange>
        requires range { AreInRange self.old }
        requires kinds { IsTrue (fits_cells self.old tree.now) }
        requires small { magnitude_of tree.now < sum_limit }
        ensures answer { result ≡ verdict (committed_cells self.old tree.now) }
        ensures range { OnOk result (AreInRange self.new) }
        ensures committed { OnOk result (self.new ≡ committed_cells self.old tree.now) }
        ensures unchanged { OnErr result (self.new ≡ self.old) }
    {
        commit_tree(tree, self.states.as_mut_slice(), &mut self.room)
    }

    /// Begins to gather the effects of a batch. It takes memory for cells that were copied alone.
    pub fn begin_gathering(&mut self, alloc: Global) -> Result<Gathering, OutOfMemory>
        ensures same { self.new ≡ self.old }
        ensures begun { IfOk result (HasBegun self.old) }
    {
        let room = mem::replace(&mut self.room, Gathering::none(alloc));
        if room.is_on(self.states.len()) {
            return Ok(room);
        }
        Gathering::new(alloc, self.states.as_slice())
    }

    /// Puts the effects that were gathered on the cells, as `commit` does with a tree of them. It takes no memory, and a time
    /// in the order of the number of cells that they touch.
    pub fn commit_gathered(&mut self, gathering: Gathering) -> Result<(), OutOfRange>
        requires range { AreInRange self.old }
        requires gathered { IsSomeTree self.old gathering }
        ensures answer { (tree : Tree) → IsWhole self.old tree gathering → result ≡ verdict (committed_cells self.old tree) }
        ensures range { OnOk result (AreInRange self.new) }
        ensures committed { OnOk result ((tree : Tree) → IsWhole self.old tree gathering → self.new ≡ committed_cells self.old tree) }
        ensures unchanged { OnErr result (self.new ≡ self.old) }
    {
        let mut room = gathering;
        let end = room.commit_on(self.states.as_mut_slice());
        self.room = room;
        end
    }

    /// Applies one effect to one cell, also past the cell's range. It takes no memory.
    pub fn emit(&mut self, cell: u16, effect: &Effect)
        requires cell { cell < length self.old }
        requires small { IsSmallOn (slice_get self.old cell) effect.now }
        ensures { self.new ≡ emitted self.old cell effect.now }
    {
        let state = applied(&self.states[cell as usize], effect);
        self.states[cell as usize] = state;
    }

    /// Moves to a time `dt` later, while there is no effect. Where a cell would leave its range, the cells stay as they
    /// are and the first such cell is named. It takes no memory.
    pub fn passed(&mut self, dt: Time) -> Result<(), OutOfRange>
        requires { AreInRange self.old }
        ensures answer { result ≡ verdict (passed self.old dt) }
        ensures range { OnOk result (AreInRange self.new) }
        ensures moved { OnOk result (self.new ≡ passed self.old dt) }
        ensures unchanged { OnErr result (self.new ≡ self.old) }
    {
        check_later(self.states.as_slice(), dt)?;
        pass_each(self.states.as_mut_slice(), dt);
        Ok(())
    }

    /// An equal value. It has no room for commits, so that one of it walks over the tree for each cell.
    pub fn copy(&self, alloc: Global) -> Result<Cells, OutOfMemory>
        ensures { IfOk result (λ copy. copy ≡ self.now) }
    {
        let states = Vec::from_slice(alloc, self.states.as_slice())?;
        Ok(Cells {
            states,
            room: Gathering::none(alloc),
        })
    }
}
