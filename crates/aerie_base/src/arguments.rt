ghost use Rattle.std.specs.Prelude.{◌≡◌, ◌↔◌, IsTrue, IfOk};

use crate::memory::OutOfMemory;
use crate::names::Name;
use crate::numbers::Number;
use crate::texts::Text;
use std::alloc::Global;

/// The value of an argument as it is written, before the model says what its words stand for.
#[derive(Debug, Drop)]
pub enum RawValue {
    /// A whole number; a duration is the number of its microseconds.
    Int(Number),
    /// `true` or `false`.
    Truth(bool),
    /// A variant as it is written: the enumeration's name, a dot and the variant's name.
    Word(Text),
}

/// An argument as it is written.
#[derive(Debug, Drop)]
pub struct RawArgument {
    /// The parameter's name.
    pub name: Name,
    /// The value.
    pub value: RawValue,
}

impl RawValue {
    /// An equal value.
    pub fn copy(&self, alloc: Global) -> Result<RawValue, OutOfMemory>
        ensures { IfOk result (λ copy. copy ≡ self.now) }
    {
        match self {
            RawValue::Int(number) => Ok(RawValue::Int(*number)),
            RawValue::Truth(truth) => Ok(RawValue::Truth(*truth)),
            RawValue::Word(word) => Ok(RawValue::Word(word.copy(alloc)?)),
        }
    }

    /// Whether the two are the same value.
    pub fn is_same(&self, other: &RawValue) -> bool
        ensures { IsTrue result ↔ (self.now ≡ other.now) }
    {
        match (self, other) {
            (RawValue::Int(number), RawValue::Int(other_number)) => number == other_number,
            (RawValue::Truth(truth), RawValue::Truth(other_truth)) => truth == other_truth,
            (RawValue::Word(word), RawValue::Word(other_word)) => word.is_same(other_word),
            _ => false,
        }
    }
}

impl RawArgument {
    /// An equal argument.
    pub fn copy(&self, alloc: Global) -> Result<RawArgument, OutOfMemory>
        ensures { IfOk result (λ copy. copy ≡ self.now) }
    {
        Ok(RawArgument {
            name: self.name.copy(alloc)?,
            value: self.value.copy(alloc)?,
        })
    }

    /// Whether the two are the same argument.
    pub fn is_same(&self, other: &RawArgument) -> bool
        ensures { IsTrue result ↔ (self.now ≡ other.now) }
    {
        self.name.is_same(&other.name) && self.value.is_same(&other.value)
    }
}
