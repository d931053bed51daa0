ghost use Rattle.std.specs.Prelude.{◌≡◌, IfOk};

use crate::raw::items::RawItem;
use crate::raw::names::RawName;
use aerie_base::{List, OutOfMemory};
use readers::copy_both;
use std::alloc::Global;

/// A model as it is written: its name, and its declarations in the text's order.
#[derive(Drop)]
pub struct RawModel {
    pub name: RawName,
    pub items: List<RawItem>,
}

impl RawModel {
    /// An equal model.
    pub fn copy(&self, alloc: Global) -> Result<RawModel, OutOfMemory>
        ensures { IfOk result (λ copy. copy ≡ self.now) }
    {
        let (name, items) = copy_both(alloc, &self.name, &self.items)?;
        Ok(RawModel { name, items })
    }
}
