ghost use Rattle.std.specs.Prelude.{◌≡◌, IfOk};

use aerie_base::{Name, OutOfMemory, Place};
use readers::RawData;
use std::alloc::Global;

/// A name, and the place of its first letter.
#[derive(Drop)]
pub struct RawName {
    pub at: Place,
    pub name: Name,
}

impl RawName {
    /// An equal name at the same place.
    pub fn copy(&self, alloc: Global) -> Result<RawName, OutOfMemory>
        ensures { IfOk result (λ copy. copy ≡ self.now) }
    {
        let name = self.name.copy(alloc)?;
        Ok(RawName { at: self.at, name })
    }
}

impl RawData for RawName {
    fn copied(&self, alloc: Global) -> Result<RawName, OutOfMemory> {
        self.copy(alloc)
    }
}
