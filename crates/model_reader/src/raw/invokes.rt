use crate::raw::expressions::RawExpr;
use crate::raw::names::RawName;
use aerie_base::{List, OutOfMemory};
use readers::{RawData, copy_both};
use std::alloc::Global;

/// An activity type by its name, of which a child is made, and the arguments in the text's order: the name of a parameter
/// and its value.
#[derive(Drop)]
pub struct RawInvoke {
    pub name: RawName,
    pub arguments: List<(RawName, RawExpr)>,
}

impl RawData for RawInvoke {
    fn copied(&self, alloc: Global) -> Result<RawInvoke, OutOfMemory> {
        let (name, arguments) = copy_both(alloc, &self.name, &self.arguments)?;
        Ok(RawInvoke { name, arguments })
    }
}
