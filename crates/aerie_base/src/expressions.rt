ghost use Rattle.std.specs.Prelude.{◌≡◌, ◌↔◌, IsTrue, IfOk};
ghost use Rattle.aerie_base.specs.expressions.Arithmetic.{compared};

use crate::containers::Boxed;
use crate::memory::OutOfMemory;
use crate::operands::Operand;
use crate::values::Value;
use std::alloc::Global;

/// How two values, or two sums, are compared.
#[derive(Clone, Copy, Debug, PartialEq, Eq)]
pub enum Comparison {
    /// `==`
    Equal,
    /// `!=`
    Unequal,
    /// `<`
    Less,
    /// `<=`
    AtMost,
    /// `>`
    More,
    /// `>=`
    AtLeast,
}

impl Comparison {
    /// Whether two whole numbers compare so.
    pub fn holds(self, left: i128, right: i128) -> bool
        ensures { result ≡ compared self left right }
    {
        match self {
            Comparison::Equal => left == right,
            Comparison::Unequal => left != right,
            Comparison::Less => left < right,
            Comparison::AtMost => left <= right,
            Comparison::More => left > right,
            Comparison::AtLeast => left >= right,
        }
    }
}

/// An operator between two expressions.
#[derive(Clone, Copy, Debug, PartialEq, Eq)]
pub enum Operator {
    /// `||`, which evaluates the right side only where the left is false.
    Or,
    /// `&&`, which evaluates the right side only where the left is true.
    And,
    /// A comparison: equality of two values of one type, or an order of whole numbers.
    Compare(Comparison),
    /// `+`
    Plus,
    /// `-`
    Minus,
    /// `*`
    Times,
    /// `/`, which truncates toward zero.
    Divide,
    /// `%`, with the sign of the dividend.
    Remainder,
}

/// An expression over locals and cells.
#[derive(Debug, Drop)]
pub enum Expr {
    /// A literal.
    Literal(Value),
    /// A local or a read of a cell.
    Operand(Operand),
    /// `!` of a truth.
    Not(Boxed<Expr>),
    /// `-` of a whole number.
    Negate(Boxed<Expr>),
    /// An operator between its left and its right side.
    Binary(Operator, Boxed<Expr>, Boxed<Expr>),
}

impl Expr {
    /// An equal expression.
    pub fn copy(&self, alloc: Global) -> Result<Expr, OutOfMemory>
        ensures { IfOk result (λ copy. copy ≡ self.now) }
    {
        match self {
            Expr::Literal(value) => Ok(Expr::Literal(*value)),
            Expr::Operand(operand) => Ok(Expr::Operand(*operand)),
            Expr::Not(inner) => {
                let inner = inner.get().copy(alloc)?;
                Ok(Expr::Not(Boxed::new(alloc, inner)?))
            }
            Expr::Negate(inner) => {
                let inner = inner.get().copy(alloc)?;
                Ok(Expr::Negate(Boxed::new(alloc, inner)?))
            }
            Expr::Binary(operator, left, right) => {
                let left = left.get().copy(alloc)?;
                let left = Boxed::new(alloc, left)?;
                let right = right.get().copy(alloc)?;
                let right = Boxed::new(alloc, right)?;
                Ok(Expr::Binary(*operator, left, right))
            }
        }
    }

    /// Whether the two are the same expression.
    pub fn is_same(&self, other: &Expr) -> bool
        ensures { IsTrue result ↔ (self.now ≡ other.now) }
    {
        match (self, other) {
            (Expr::Literal(value), Expr::Literal(other_value)) => value == other_value,
            (Expr::Operand(operand), Expr::Operand(other_operand)) => operand == other_operand,
            (Expr::Not(inner), Expr::Not(other_inner)) => inner.get().is_same(other_inner.get()),
            (Expr::Negate(inner), Expr::Negate(other_inner)) => {
                inner.get().is_same(other_inner.get())
            }
            (
                Expr::Binary(operator, left, right),
                Expr::Binary(other_operator, other_left, other_right),
            ) => {
                operator == other_operator
                    && left.get().is_same(other_left.get())
                    && right.get().is_same(other_right.get())
            }
            _ => false,
        }
    }
}
