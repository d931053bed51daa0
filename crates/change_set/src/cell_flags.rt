//! Which cells are noted, by flags.

ghost use Rattle.std.specs.Prelude.{◌≡◌, ◌↔◌, ◌-◌, ◌<◌, ◌++◌, ℕ, [], false, replicate, length, slice_set, slice_index_or, IsTrue, IfOk, OnOk, OnErr};
ghost use Rattle.change_set.specs.Differences.{PutsFlagAlone};

use aerie_base::OutOfMemory;
use std::alloc::Global;
use std::marker::Model;

/// As many cells as a model has at most: so many are noted without more memory.
const MOST_CELLS: usize = 256;

/// A flag for each cell, and how many of them are set. A cell beyond them has none. Contracts see the flags.
#[derive(Drop)]
pub(crate) struct CellFlags {
    flags: Vec<bool>,
    how_many: usize,
}

impl Model for CellFlags {
    ghost use Rattle.std.specs.Prelude.{◌≡◌, List, Bool, count_by};

    ghost Value = { List Bool };

    ghost view = { λ cells. cells.flags.items };

    ghost invariant = { λ cells. cells.how_many ≡ count_by (λ flag. flag) cells.flags.items };
}

impl CellFlags {
    /// No flag is set.
    pub(crate) fn new(alloc: Global) -> Result<CellFlags, OutOfMemory>
        ensures { IfOk result (λ cells. cells ≡ []) }
    {
        Ok(CellFlags {
            flags: Vec::with_capacity(alloc, MOST_CELLS)?,
            how_many: 0,
        })
    }

    /// Whether the flag of a cell is set.
    pub(crate) fn has(&self, cell: u16) -> bool
        ensures { result ≡ slice_index_or self.now cell false }
    {
        match self.flags.get(usize::from(cell)) {
            Some(flag) => *flag,
            None => false,
        }
    }

    /// Whether no flag is set. It looks at none of them.
    pub(crate) fn is_empty(&self) -> bool
        ensures { IsTrue result ↔ ((cell : ℕ) → slice_index_or self.now cell false ≡ false) }
    {
        self.how_many == 0
    }

    /// There is a flag for each of so many cells, at least.
    fn reach(&mut self, cells: usize) -> Result<(), OutOfMemory>
        ensures more_ { OnOk result (self.new ≡ self.old ++ replicate (cells - length self.old) false) }
        ensures refused { OnErr result (self.new ≡ self.old) }
    {
        if self.flags.len() < cells {
            self.flags.resize(cells, false)?;
        }
        Ok(())
    }

    /// The flag at an index becomes this.
    fn put(&mut self, at: usize, flag: bool)
        requires { at < length self.old }
        ensures { self.new ≡ slice_set self.old at flag }
    {
        if self.flags[at] {
            self.how_many -= 1;
        }
        self.flags[at] = flag;
        if flag {
            self.how_many += 1;
        }
    }

    /// The flag of a cell becomes this, and no other changes.
    pub(crate) fn note(&mut self, cell: u16, flag: bool) -> Result<(), OutOfMemory>
        ensures noted { OnOk result (PutsFlagAlone cell flag self.old self.new) }
        ensures refused { OnErr result (self.new ≡ self.old) }
    {
        let at = usize::from(cell);
        if flag {
            self.reach(at + 1)?;
        }
        if at < self.flags.len() {
            self.put(at, flag);
        }
        Ok(())
    }
}
