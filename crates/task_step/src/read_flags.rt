//! Which cells a step read.

ghost use Rattle.std.specs.Prelude.{◌≡◌, ◌+◌, ◌<◌, ◌≤◌, ℕ, length, replicate, true, false, slice_index_or};
ghost use Rattle.aerie_base.specs.expressions.Readings.{also};
ghost use Rattle.task_step.specs.FlagWords.{HaveNoFlag};

use std::marker::Model;

/// Which of at most 256 cells were read, a bit for each cell. Contracts see a flag for each cell. It takes no memory of its
/// own.
#[derive(Drop)]
pub(crate) struct ReadFlags {
    cells: usize,
    /// A word for each 64 cells, whose lowest bit is of the first of them.
    words: [u64; 4],
}

impl Model for ReadFlags {
    ghost use Rattle.std.specs.Prelude.{List, Bool};
    ghost use Rattle.std.specs.Prelude.{◌≤◌};
    ghost use Rattle.task_step.specs.FlagWords.{flags_of};

    ghost Value = { List Bool };

    ghost view = { λ read. flags_of read.cells read.words };

    ghost invariant = { λ read. read.cells ≤ 256 };
}

/// The word of a group of 64 cells.
fn word_of(words: &[u64; 4], group: usize) -> u64
    requires { group < 4 }
    ensures { result ≡ slice_index_or words.now group 0 }
{
    words[group]
}

impl ReadFlags {
    /// None of so many cells was read.
    pub(crate) fn none(cells: usize) -> ReadFlags
        requires { cells ≤ 256 }
        ensures { result ≡ replicate cells false }
    {
        ReadFlags {
            cells,
            words: [0; 4],
        }
    }

    /// The number of cells.
    pub(crate) fn len(&self) -> usize
        ensures length { result ≡ length self.now }
        ensures few { result ≤ 256 }
    {
        self.cells
    }

    /// Notes that a cell was read.
    pub(crate) fn note(&mut self, cell: u16)
        ensures { self.new ≡ also cell self.old }
    {
        let at = usize::from(cell);
        if at < self.cells {
            self.words[at / 64] |= 1u64 << (at % 64);
        }
    }

    /// How many cells were read: the room that their list takes.
    pub(crate) fn count(&self) -> usize {
        let mut count: usize = 0;
        for word in &self.words[..self.cells.div_ceil(64)] {
            count += word.count_ones() as usize;
        }
        count
    }

    /// The first cell from one on that was read, or the number of cells where none was.
    pub(crate) fn next(&self, from: usize) -> usize
        requires { from ≤ length self.now }
        ensures from { from ≤ result }
        ensures within { result ≤ length self.now }
        ensures read { result < length self.now → slice_index_or self.now result false ≡ true }
        ensures none { HaveNoFlag self.now from result }
    {
        let mut at = from;
        while at < self.cells {
            let rest = word_of(&self.words, at / 64) >> (at % 64);
            if rest != 0 {
                return (at + rest.trailing_zeros() as usize).min(self.cells);
            }
            at = (at / 64 + 1) * 64;
        }
        self.cells
    }
}
