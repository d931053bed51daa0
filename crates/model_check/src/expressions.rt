//! Expressions are judged and made.

ghost use Rattle.std.specs.Prelude.{◌≡◌, IfOk};
ghost use Rattle.model_check.specs.Diagnostics.{noted, Makes};
ghost use Rattle.model_check.specs.Expressions.{kind_of_operator, side_kind_of, raw_kind, is_wanted, sides_diagnostics, expr_diagnostics, expr_of};
ghost use Rattle.model_check.specs.Making.{MakesTyped, MakesValued};

use crate::causes::Cause;
use crate::cell_reads::{note_read, raw_read_kind, read_operand};
use crate::literals::{literal_kind, literal_value, note_literal, note_mismatch};
use crate::scopes::BodyScope;
use crate::symbols::Symbols;
use aerie_base::{Boxed, Comparison, Expr, Kind, Operator, OutOfMemory};
use diagnostics::Diagnostic;
use model_reader::{RawExpr, RawExprKind};
use std::alloc::Global;

/// The type that an operator gives.
fn kind_of_operator(operator: Operator) -> Kind
    ensures { result ≡ kind_of_operator operator }
{
    match operator {
        Operator::Or | Operator::And | Operator::Compare(_) => Kind::Truth,
        Operator::Plus
        | Operator::Minus
        | Operator::Times
        | Operator::Divide
        | Operator::Remainder => Kind::Int,
    }
}

/// The type that an operator takes on both sides, or `None` where it takes two values of any one type.
fn side_kind_of(operator: Operator) -> Option<Kind>
    ensures { result ≡ side_kind_of operator }
{
    match operator {
        Operator::Or | Operator::And => Some(Kind::Truth),
        Operator::Compare(Comparison::Equal) | Operator::Compare(Comparison::Unequal) => None,
        _ => Some(Kind::Int),
    }
}

/// The type of an expression, where it is no name and no literal that is unknown. It takes no walk: an operator tells
/// its type.
pub(crate) fn raw_kind(symbols: &Symbols, scope: &BodyScope, raw: &RawExprKind) -> Option<Kind>
    ensures { result ≡ raw_kind symbols.now scope.now raw.now }
{
    match raw {
        RawExprKind::Literal(literal) => literal_kind(&symbols.enums, literal),
        RawExprKind::Read(read) => raw_read_kind(symbols, scope, read),
        RawExprKind::Not(_) => Some(Kind::Truth),
        RawExprKind::Negate(_) => Some(Kind::Int),
        RawExprKind::Binary { operator, .. } => Some(kind_of_operator(*operator)),
    }
}

/// Notes a part that has another type than is wanted.
pub(crate) fn note_unless_wanted(
    symbols: &Symbols,
    scope: &BodyScope,
    wanted: Kind,
    part: &RawExpr,
    found: &mut Option<Diagnostic<Cause>>,
)
    ensures { found.new ≡ noted found.old (is_wanted symbols.now scope.now wanted part.now) }
{
    note_mismatch(
        found,
        part.at,
        Some(wanted),
        raw_kind(symbols, scope, &part.what),
    );
}

/// Notes sides of an operator of other types than it takes.
#[tactic(auto, using(diagnostics::specs::NotedInTurn::noted_appended))]
fn note_sides(
    symbols: &Symbols,
    scope: &BodyScope,
    operator: Operator,
    left: &RawExpr,
    right: &RawExpr,
    found: &mut Option<Diagnostic<Cause>>,
)
    ensures { found.new ≡ noted found.old (sides_diagnostics symbols.now scope.now (side_kind_of operator) left.now right.now) }
{
    match side_kind_of(operator) {
        None => note_mismatch(
            found,
            right.at,
            raw_kind(symbols, scope, &left.what),
            raw_kind(symbols, scope, &right.what),
        ),
        Some(wanted) => {
            note_unless_wanted(symbols, scope, wanted, left, found);
            note_unless_wanted(symbols, scope, wanted, right, found);
        }
    }
}

/// Makes an expression, and notes what is wrong with it. It goes over the expression once.
pub(crate) fn expression(
    alloc: Global,
    symbols: &Symbols,
    scope: &BodyScope,
    raw: &RawExpr,
    found: &mut Option<Diagnostic<Cause>>,
) -> Result<Expr, OutOfMemory>
    ensures { IfOk result (Makes (expr_of symbols.now scope.now raw.now) (expr_diagnostics symbols.now scope.now raw.now) found.old found.new) }
{
    match &raw.what {
        RawExprKind::Literal(literal) => {
            note_literal(&symbols.enums, literal, found);
            Ok(Expr::Literal(literal_value(&symbols.enums, literal)))
        }
        RawExprKind::Read(read) => {
            note_read(symbols, scope, read, found);
            Ok(Expr::Operand(read_operand(symbols, scope, read)))
        }
        RawExprKind::Not(inner) => {
            let inner = inner.get();
            let made = expression(alloc, symbols, scope, inner, found)?;
            note_unless_wanted(symbols, scope, Kind::Truth, inner, found);
            Ok(Expr::Not(Boxed::new(alloc, made)?))
        }
        RawExprKind::Negate(inner) => {
            let inner = inner.get();
            let made = expression(alloc, symbols, scope, inner, found)?;
            note_unless_wanted(symbols, scope, Kind::Int, inner, found);
            Ok(Expr::Negate(Boxed::new(alloc, made)?))
        }
        RawExprKind::Binary {
            operator,
            left,
            right,
        } => {
            let left = left.get();
            let right = right.get();
            let made_left = expression(alloc, symbols, scope, left, found)?;
            let made_right = expression(alloc, symbols, scope, right, found)?;
            note_sides(symbols, scope, *operator, left, right, found);
            let made_left = Boxed::new(alloc, made_left)?;
            let made_right = Boxed::new(alloc, made_right)?;
            Ok(Expr::Binary(*operator, made_left, made_right))
        }
    }
}

// ---- values of a type

/// Makes a value of this type, and notes what is wrong with it.
#[tactic(auto, using(diagnostics::specs::NotedInTurn::noted_appended))]
pub(crate) fn typed(
    alloc: Global,
    symbols: &Symbols,
    scope: &BodyScope,
    wanted: Kind,
    raw: &RawExpr,
    found: &mut Option<Diagnostic<Cause>>,
) -> Result<Expr, OutOfMemory>
    ensures { IfOk result (MakesTyped symbols.now scope.now wanted raw.now found.old found.new) }
{
    let made = expression(alloc, symbols, scope, raw, found)?;
    note_unless_wanted(symbols, scope, wanted, raw, found);
    Ok(made)
}

/// Makes a value of a type, where one is wanted, and notes what is wrong with it.
#[tactic(auto, using(diagnostics::specs::NotedInTurn::noted_appended))]
pub(crate) fn valued(
    alloc: Global,
    symbols: &Symbols,
    scope: &BodyScope,
    wanted: Option<Kind>,
    raw: &RawExpr,
    found: &mut Option<Diagnostic<Cause>>,
) -> Result<Expr, OutOfMemory>
    ensures { IfOk result (MakesValued symbols.now scope.now wanted raw.now found.old found.new) }
{
    let made = expression(alloc, symbols, scope, raw, found)?;
    note_mismatch(found, raw.at, wanted, raw_kind(symbols, scope, &raw.what));
    Ok(made)
}
