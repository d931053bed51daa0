ghost use Rattle.std.specs.Prelude.{◌≡◌, IfOk};

use crate::raw::literals::RawLiteralKind;
use crate::raw::reads::RawRead;
use aerie_base::{Boxed, Operator, OutOfMemory, Place};
use readers::RawData;
use std::alloc::Global;

/// An expression, and the place of its first token, an opening parenthesis or a `-` included. Parentheses leave no other
/// trace.
#[cycle(expression)]
#[derive(Drop)]
pub struct RawExpr {
    pub at: Place,
    pub what: RawExprKind,
}

/// What an expression is.
#[cycle(expression)]
#[derive(Drop)]
pub enum RawExprKind {
    /// A literal, which has no sign here: `-` before it is a `Negate`.
    Literal(RawLiteralKind),
    /// A read of a local or of a cell.
    Read(RawRead),
    /// `!` of a truth.
    Not(Boxed<RawExpr>),
    /// `-` of a whole number.
    Negate(Boxed<RawExpr>),
    /// An operator between its left and its right side.
    Binary {
        operator: Operator,
        left: Boxed<RawExpr>,
        right: Boxed<RawExpr>,
    },
}

impl RawExpr {
    /// An equal expression at the same place.
    #[cycle(copy)]
    pub fn copy(&self, alloc: Global) -> Result<RawExpr, OutOfMemory>
        ensures { IfOk result (λ copy. copy ≡ self.now) }
    {
        let what = self.what.copy(alloc)?;
        Ok(RawExpr { at: self.at, what })
    }
}

impl RawExprKind {
    /// An equal expression.
    #[cycle(copy)]
    pub fn copy(&self, alloc: Global) -> Result<RawExprKind, OutOfMemory>
        ensures { IfOk result (λ copy. copy ≡ self.now) }
    {
        match self {
            RawExprKind::Literal(literal) => Ok(RawExprKind::Literal(literal.copied(alloc)?)),
            RawExprKind::Read(read) => Ok(RawExprKind::Read(read.copied(alloc)?)),
            RawExprKind::Not(inner) => Ok(RawExprKind::Not(copy_boxed(alloc, inner)?)),
            RawExprKind::Negate(inner) => Ok(RawExprKind::Negate(copy_boxed(alloc, inner)?)),
            RawExprKind::Binary {
                operator,
                left,
                right,
            } => Ok(RawExprKind::Binary {
                operator: *operator,
                left: copy_boxed(alloc, left)?,
                right: copy_boxed(alloc, right)?,
            }),
        }
    }
}

/// An equal operand.
#[cycle(copy)]
fn copy_boxed(alloc: Global, operand: &Boxed<RawExpr>) -> Result<Boxed<RawExpr>, OutOfMemory>
    ensures { IfOk result (λ copy. copy ≡ operand.now) }
{
    let copy = operand.get().copy(alloc)?;
    Boxed::new(alloc, copy)
}

impl RawData for RawExpr {
    fn copied(&self, alloc: Global) -> Result<RawExpr, OutOfMemory> {
        self.copy(alloc)
    }
}
