//! Models: what a mission has and what its activities do.

ghost use Rattle.std.specs.Prelude.{◌≡◌, ◌↔◌, IsTrue, IfOk};

mod model;

use crate::containers::List;
use crate::expressions::Expr;
use crate::linear::Linear;
use crate::memory::OutOfMemory;
use crate::names::Name;
use crate::numbers::Number;
use crate::operands::CellRead;
use crate::plain_data::{copy_list, same_list};
use crate::statements::{Stmt, copy_block, same_block};
use crate::values::{Kind, Value};
pub use model::Model;
use std::alloc::Global;

/// An enumeration.
#[derive(Debug, Drop)]
pub struct EnumType {
    /// Its name.
    pub name: Name,
    /// The names of its variants, 1 to 256.
    pub variants: List<Name>,
}

/// A cell as it is declared.
#[derive(Clone, Copy, Debug, PartialEq, Eq)]
pub enum CellStart {
    /// A counter that begins with this number.
    Counter(Number),
    /// A register of a type that begins with this value.
    Register {
        /// The type of its values.
        kind: Kind,
        /// Its first value.
        value: Value,
    },
    /// An accumulator.
    Accumulator {
        /// Its first volume, in millionths of a unit.
        volume: Number,
        /// Its first rate, in units a second, from -10^12 to 10^12.
        rate: i64,
    },
}

/// What is shown of the cells over time.
#[derive(Debug, Drop)]
pub enum Resource {
    /// A counter, a register, a conflict flag or a rate.
    Discrete(CellRead),
    /// A sum over counters and volumes.
    Linear(Linear),
}

/// A parameter of an activity type.
#[derive(Debug, Drop)]
pub struct Parameter {
    /// Its name.
    pub name: Name,
    /// Its type.
    pub kind: Kind,
    /// Its value where none is given.
    pub default: Option<Value>,
}

/// An activity type.
#[derive(Debug, Drop)]
pub struct Activity {
    /// Its name.
    pub name: Name,
    /// At most 16 parameters.
    pub parameters: List<Parameter>,
    /// The type of its result, where it has one.
    pub result: Option<Kind>,
    /// At most 64 truths over the parameters, which a directive's arguments must meet.
    pub requires_: List<Expr>,
    /// How many locals it has, parameters included: at most 64.
    pub slots: u16,
    /// At most 4,096 statements.
    pub body: List<Stmt>,
}

/// A body that begins with the plan and belongs to no directive.
#[derive(Debug, Drop)]
pub struct Daemon {
    /// How many locals it has: at most 64.
    pub slots: u16,
    /// At most 4,096 statements.
    pub body: List<Stmt>,
}

impl EnumType {
    /// An equal enumeration.
    pub fn copy(&self, alloc: Global) -> Result<EnumType, OutOfMemory>
        ensures { IfOk result (λ copy. copy ≡ self.now) }
    {
        Ok(EnumType {
            name: self.name.copy(alloc)?,
            variants: copy_list(alloc, &self.variants)?,
        })
    }

    /// Whether the two are the same enumeration.
    pub fn is_same(&self, other: &EnumType) -> bool
        ensures { IsTrue result ↔ (self.now ≡ other.now) }
    {
        self.name.is_same(&other.name)
            && same_list(self.variants.as_slice(), other.variants.as_slice())
    }
}

impl Resource {
    /// An equal resource.
    pub fn copy(&self, alloc: Global) -> Result<Resource, OutOfMemory>
        ensures { IfOk result (λ copy. copy ≡ self.now) }
    {
        match self {
            Resource::Discrete(read) => Ok(Resource::Discrete(*read)),
            Resource::Linear(form) => Ok(Resource::Linear(form.copy(alloc)?)),
        }
    }

    /// Whether the two are the same resource.
    pub fn is_same(&self, other: &Resource) -> bool
        ensures { IsTrue result ↔ (self.now ≡ other.now) }
    {
        match (self, other) {
            (Resource::Discrete(read), Resource::Discrete(other_read)) => read == other_read,
            (Resource::Linear(form), Resource::Linear(other_form)) => form.is_same(other_form),
            _ => false,
        }
    }
}

impl Parameter {
    /// An equal parameter.
    pub fn copy(&self, alloc: Global) -> Result<Parameter, OutOfMemory>
        ensures { IfOk result (λ copy. copy ≡ self.now) }
    {
        Ok(Parameter {
            name: self.name.copy(alloc)?,
            kind: self.kind,
            default: self.default,
        })
    }

    /// Whether the two are the same parameter.
    pub fn is_same(&self, other: &Parameter) -> bool
        ensures { IsTrue result ↔ (self.now ≡ other.now) }
    {
        self.name.is_same(&other.name) && self.kind == other.kind && self.default == other.default
    }
}

impl Activity {
    /// An equal activity type.
    pub fn copy(&self, alloc: Global) -> Result<Activity, OutOfMemory>
        ensures { IfOk result (λ copy. copy ≡ self.now) }
    {
        Ok(Activity {
            name: self.name.copy(alloc)?,
            parameters: copy_list(alloc, &self.parameters)?,
            result: self.result,
            requires_: copy_list(alloc, &self.requires_)?,
            slots: self.slots,
            body: copy_block(alloc, &self.body)?,
        })
    }

    /// Whether the two are the same activity type.
    pub fn is_same(&self, other: &Activity) -> bool
        ensures { IsTrue result ↔ (self.now ≡ other.now) }
    {
        self.name.is_same(&other.name)
            && same_list(self.parameters.as_slice(), other.parameters.as_slice())
            && self.result == other.result
            && same_list(self.requires_.as_slice(), other.requires_.as_slice())
            && self.slots == other.slots
            && same_block(self.body.as_slice(), other.body.as_slice())
    }
}

impl Daemon {
    /// An equal daemon.
    pub fn copy(&self, alloc: Global) -> Result<Daemon, OutOfMemory>
        ensures { IfOk result (λ copy. copy ≡ self.now) }
    {
        Ok(Daemon {
            slots: self.slots,
            body: copy_block(alloc, &self.body)?,
        })
    }

    /// Whether the two are the same daemon.
    pub fn is_same(&self, other: &Daemon) -> bool
        ensures { IsTrue result ↔ (self.now ≡ other.now) }
    {
        self.slots == other.slots && same_block(self.body.as_slice(), other.body.as_slice())
    }
}
