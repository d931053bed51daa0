ghost use Rattle.std.specs.Prelude.{◌≡◌, ◌↔◌, IsTrue, IfOk};

use crate::containers::Boxed;
use crate::expressions::Comparison;
use crate::linear::Linear;
use crate::memory::OutOfMemory;
use crate::operands::Operand;
use crate::values::Value;
use std::alloc::Global;

/// A side of an equality within a condition.
#[derive(Clone, Copy, Debug, PartialEq, Eq)]
pub enum Simple {
    /// A literal.
    Literal(Value),
    /// A local or a register.
    Operand(Operand),
}

impl Simple {
    /// Whether the two are the same side.
    pub fn is_same(&self, other: &Simple) -> bool
        ensures { IsTrue result ↔ (self.now ≡ other.now) }
    {
        self == other
    }
}

/// What a task waits for. A condition never faults.
#[derive(Debug, Drop)]
pub enum Cond {
    /// `true` or `false`.
    Literal(bool),
    /// A truth: a local, a register or the conflict flag of a register.
    Flag(Operand),
    /// Whether two values of a truth or enumeration type are equal, or unequal.
    Same {
        /// The left side.
        left: Simple,
        /// The right side.
        right: Simple,
        /// True for `==` and false for `!=`.
        equal: bool,
    },
    /// A comparison of two linear forms.
    Compare {
        /// The left side.
        left: Linear,
        /// How the two are compared.
        how: Comparison,
        /// The right side.
        right: Linear,
    },
    /// `!`
    Not(Boxed<Cond>),
    /// `&&`
    And(Boxed<Cond>, Boxed<Cond>),
    /// `||`
    Or(Boxed<Cond>, Boxed<Cond>),
}

impl Cond {
    /// An equal condition.
    pub fn copy(&self, alloc: Global) -> Result<Cond, OutOfMemory>
        ensures { IfOk result (λ copy. copy ≡ self.now) }
    {
        match self {
            Cond::Literal(truth) => Ok(Cond::Literal(*truth)),
            Cond::Flag(operand) => Ok(Cond::Flag(*operand)),
            Cond::Same { left, right, equal } => Ok(Cond::Same {
                left: *left,
                right: *right,
                equal: *equal,
            }),
            Cond::Compare { left, how, right } => Ok(Cond::Compare {
                left: left.copy(alloc)?,
                how: *how,
                right: right.copy(alloc)?,
            }),
            Cond::Not(inner) => {
                let inner = inner.get().copy(alloc)?;
                Ok(Cond::Not(Boxed::new(alloc, inner)?))
            }
            Cond::And(left, right) => {
                let left = left.get().copy(alloc)?;
                let left = Boxed::new(alloc, left)?;
                let right = right.get().copy(alloc)?;
                Ok(Cond::And(left, Boxed::new(alloc, right)?))
            }
            Cond::Or(left, right) => {
                let left = left.get().copy(alloc)?;
                let left = Boxed::new(alloc, left)?;
                let right = right.get().copy(alloc)?;
                Ok(Cond::Or(left, Boxed::new(alloc, right)?))
            }
        }
    }

    /// Whether the two are the same condition.
    pub fn is_same(&self, other: &Cond) -> bool
        ensures { IsTrue result ↔ (self.now ≡ other.now) }
    {
        match (self, other) {
            (Cond::Literal(truth), Cond::Literal(other_truth)) => truth == other_truth,
            (Cond::Flag(operand), Cond::Flag(other_operand)) => operand == other_operand,
            (
                Cond::Same { left, right, equal },
                Cond::Same {
                    left: other_left,
                    right: other_right,
                    equal: other_equal,
                },
            ) => left.is_same(other_left) && right.is_same(other_right) && equal == other_equal,
            (
                Cond::Compare { left, how, right },
                Cond::Compare {
                    left: other_left,
                    how: other_how,
                    right: other_right,
                },
            ) => how == other_how && left.is_same(other_left) && right.is_same(other_right),
            (Cond::Not(inner), Cond::Not(other_inner)) => inner.get().is_same(other_inner.get()),
            (Cond::And(left, right), Cond::And(other_left, other_right)) => {
                left.get().is_same(other_left.get()) && right.get().is_same(other_right.get())
            }
            (Cond::Or(left, right), Cond::Or(other_left, other_right)) => {
                left.get().is_same(other_left.get()) && right.get().is_same(other_right.get())
            }
            _ => false,
        }
    }
}
