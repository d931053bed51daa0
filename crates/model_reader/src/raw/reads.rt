use crate::raw::names::RawName;
use aerie_base::OutOfMemory;
use readers::RawData;
use std::alloc::Global;

/// Which part of a cell is read.
#[derive(Clone, Copy, Debug, PartialEq, Eq)]
pub enum RawPart {
    /// The cell itself: nothing stands behind its name.
    Whole,
    /// `.volume` of an accumulator.
    Volume,
    /// `.rate` of an accumulator.
    Rate,
    /// `.conflicted` of a register.
    Conflicted,
}

/// A read of a local or of a cell, with whose name it begins, or of a part of it.
#[derive(Drop)]
pub struct RawRead {
    pub name: RawName,
    pub part: RawPart,
}

impl RawData for RawRead {
    fn copied(&self, alloc: Global) -> Result<RawRead, OutOfMemory> {
        let name = self.name.copy(alloc)?;
        let part = self.part;
        Ok(RawRead { name, part })
    }
}
