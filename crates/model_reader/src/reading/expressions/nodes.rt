//! Expressions of others, with their heights.

ghost use Rattle.std.specs.Prelude.{◌≡◌, ◌<◌, IfOk};
ghost use Rattle.model_reader.specs.reading.Expressions.{in_parentheses, behind_sign, higher, binary};

use crate::raw::{RawExpr, RawExprKind};
use crate::reading::expressions::precedence::Sign;
use crate::reading::with_height::WithHeight;
use aerie_base::{Boxed, Operator, OutOfMemory, Place};
use std::alloc::Global;

/// The expression in parentheses, of which the first has this place.
pub fn in_parentheses(at: Place, inner: WithHeight) -> WithHeight
    requires { inner.height < 64 }
    ensures { result ≡ in_parentheses at inner }
{
    WithHeight {
        expr: RawExpr {
            at,
            what: inner.expr.what,
        },
        height: inner.height + 1,
    }
}

/// The expression behind a sign.
pub fn behind_sign(
    alloc: Global,
    at: Place,
    sign: Sign,
    inner: WithHeight,
) -> Result<WithHeight, OutOfMemory>
    requires { inner.height < 64 }
    ensures { IfOk result (λ whole. whole ≡ behind_sign at sign inner) }
{
    let height = inner.height + 1;
    let operand = Boxed::new(alloc, inner.expr)?;
    let what = match sign {
        Sign::Minus => RawExprKind::Negate(operand),
        Sign::Exclamation => RawExprKind::Not(operand),
    };
    let expr = RawExpr { at, what };
    Ok(WithHeight { expr, height })
}

fn higher(a: usize, b: usize) -> usize
    ensures { result ≡ higher a b }
{
    if a <= b { b } else { a }
}

/// The operator between two expressions.
pub fn binary(
    alloc: Global,
    operator: Operator,
    left: WithHeight,
    right: WithHeight,
) -> Result<WithHeight, OutOfMemory>
    requires left { left.height < 64 }
    requires right { right.height < 64 }
    ensures { IfOk result (λ whole. whole ≡ binary operator left right) }
{
    let at = left.expr.at;
    let height = higher(left.height, right.height) + 1;
    let left = Boxed::new(alloc, left.expr)?;
    let right = Boxed::new(alloc, right.expr)?;
    let what = RawExprKind::Binary {
        operator,
        left,
        right,
    };
    let expr = RawExpr { at, what };
    Ok(WithHeight { expr, height })
}
