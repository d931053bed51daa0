use crate::raw::names::RawName;
use aerie_base::OutOfMemory;
use readers::RawData;
use std::alloc::Global;

/// The type of a parameter, a register or a result.
#[derive(Drop)]
pub enum RawType {
    /// `int` or `duration`: whole numbers, of which a duration is the number of its microseconds.
    Int,
    /// `truth`
    Truth,
    /// The variants of the enumeration of this name.
    Named(RawName),
}

impl RawData for RawType {
    fn copied(&self, alloc: Global) -> Result<RawType, OutOfMemory> {
        match self {
            RawType::Int => Ok(RawType::Int),
            RawType::Truth => Ok(RawType::Truth),
            RawType::Named(name) => Ok(RawType::Named(name.copy(alloc)?)),
        }
    }
}
