ghost use Rattle.std.specs.Prelude.{◌≡◌, IfOk};
ghost use Rattle.model_reader.specs.declared.raw.items.RawItem.TheVariants.{Activity};

use crate::raw::expressions::RawExpr;
use crate::raw::literals::RawLiteral;
use crate::raw::names::RawName;
use crate::raw::reads::RawRead;
use crate::raw::statements::RawStmt;
use crate::raw::types::RawType;
use aerie_base::{List, Number, OutOfMemory};
use readers::{RawData, copy_both};
use std::alloc::Global;

/// A parameter of an activity type, with the value that it has where no argument is given.
#[derive(Drop)]
pub struct RawParameter {
    pub name: RawName,
    pub kind: RawType,
    pub default: Option<RawLiteral>,
}

/// A declaration of a model.
#[derive(Drop)]
pub enum RawItem {
    /// An enumeration, with its variants in the text's order.
    Enum {
        name: RawName,
        variants: List<RawName>,
    },
    /// A counter, with its value at time 0.
    Counter {
        name: RawName,
        start: Number,
    },
    /// A register, with the type of what it holds and what it holds at time 0.
    Register {
        name: RawName,
        kind: RawType,
        start: RawLiteral,
    },
    /// An accumulator, with its volume at time 0, in millionths of a unit, and its rate then, in units a second: a whole
    /// number.
    Accumulator {
        name: RawName,
        volume: Number,
        rate: RawLiteral,
    },
    /// A resource that is a read of a cell.
    Discrete {
        name: RawName,
        read: RawRead,
    },
    /// A resource that is a sum of reads, each with a coefficient, and a constant.
    Linear {
        name: RawName,
        sum: RawExpr,
    },
    /// An activity type: its parameters in the text's order, the type of its result where it has one, truths of its
    /// parameters that arguments have to meet, in the text's order, and its statements.
    Activity {
        name: RawName,
        parameters: List<RawParameter>,
        result: Option<RawType>,
        requires_: List<RawExpr>,
        body: List<RawStmt>,
    },
    /// A daemon, which begins at time 0, with its statements.
    Daemon {
        body: List<RawStmt>,
    },
}

impl RawData for RawParameter {
    fn copied(&self, alloc: Global) -> Result<RawParameter, OutOfMemory> {
        let (name, kind) = copy_both(alloc, &self.name, &self.kind)?;
        let default = RawData::copied(&self.default, alloc)?;
        Ok(RawParameter {
            name,
            kind,
            default,
        })
    }
}

/// An equal activity type.
fn copy_activity(
    alloc: Global,
    name: &RawName,
    parameters: &List<RawParameter>,
    returned: &Option<RawType>,
    requires_: &List<RawExpr>,
    body: &List<RawStmt>,
) -> Result<RawItem, OutOfMemory>
    ensures { IfOk result (λ copy. copy ≡ Activity name.now parameters.now returned.now requires_.now body.now) }
{
    let (name, parameters) = copy_both(alloc, name, parameters)?;
    let result = RawData::copied(returned, alloc)?;
    let (requires_, body) = copy_both(alloc, requires_, body)?;
    Ok(RawItem::Activity {
        name,
        parameters,
        result,
        requires_,
        body,
    })
}

impl RawData for RawItem {
    fn copied(&self, alloc: Global) -> Result<RawItem, OutOfMemory> {
        match self {
            RawItem::Enum { name, variants } => {
                let (name, variants) = copy_both(alloc, name, variants)?;
                Ok(RawItem::Enum { name, variants })
            }
            RawItem::Counter { name, start } => Ok(RawItem::Counter {
                name: name.copy(alloc)?,
                start: *start,
            }),
            RawItem::Register { name, kind, start } => {
                let (name, kind) = copy_both(alloc, name, kind)?;
                let start = start.copied(alloc)?;
                Ok(RawItem::Register { name, kind, start })
            }
            RawItem::Accumulator { name, volume, rate } => {
                let (name, rate) = copy_both(alloc, name, rate)?;
                let volume = *volume;
                Ok(RawItem::Accumulator { name, volume, rate })
            }
            RawItem::Discrete { name, read } => {
                let (name, read) = copy_both(alloc, name, read)?;
                Ok(RawItem::Discrete { name, read })
            }
            RawItem::Linear { name, sum } => {
                let (name, sum) = copy_both(alloc, name, sum)?;
                Ok(RawItem::Linear { name, sum })
            }
            RawItem::Activity {
                name,
                parameters,
                result,
                requires_,
                body,
            } => copy_activity(alloc, name, parameters, result, requires_, body),
            RawItem::Daemon { body } => Ok(RawItem::Daemon {
                body: body.copied(alloc)?,
            }),
        }
    }
}
