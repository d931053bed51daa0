//! Conditions of `wait until` are judged and made.

ghost use Rattle.std.specs.Prelude.{◌≡◌, true, false, IfOk};
ghost use Rattle.aerie_base.specs.declared.conditions.Cond.{Literal};
ghost use Rattle.diagnostics.specs.Diagnostics.{at_place, refused_unless};
ghost use Rattle.model_check.specs.Diagnostics.{noted, Makes};
ghost use Rattle.model_check.specs.declared.causes.Cause.TheVariants.{NotLinear};
ghost use Rattle.model_check.specs.Waits.{is_side_part, is_side, side_diagnostics, side_of, is_int, are_numbers, compares_forms, is_equal, forms_compared, is_truth, literal_truth, junction, joint_of, cond_of, cond_diagnostics, wait_diagnostics};
ghost use Rattle.model_check.specs.Making.{MakesComparison, MakesCompared, MakesPlainOperator};

use crate::causes::Cause;
use crate::cell_reads::{raw_read_kind, read_operand};
use crate::expressions::{expression, note_unless_wanted, raw_kind};
use crate::forms::linear;
use crate::leaves::FormUse;
use crate::literals::{literal_kind, literal_value};
use crate::scopes::BodyScope;
use crate::symbols::Symbols;
use aerie_base::{Boxed, Comparison, Cond, Kind, Operator, OutOfMemory, Place, Simple, Value};
use diagnostics::{Diagnostic, note};
use model_reader::{RawExpr, RawExprKind, RawLiteralKind, RawPart};
use std::alloc::Global;

// ---- sides of an equality

/// Whether a part of what goes by a name may be a side, by its type.
fn is_side_part(part: RawPart, kind: Option<Kind>) -> bool
    ensures { result ≡ is_side_part part kind }
{
    match part {
        RawPart::Whole => true,
        RawPart::Volume | RawPart::Rate | RawPart::Conflicted => kind.is_none(),
    }
}

/// Whether an expression may be a side: a literal, a local or a register.
fn is_side(symbols: &Symbols, scope: &BodyScope, raw: &RawExprKind) -> bool
    ensures { result ≡ is_side symbols.now scope.now raw.now }
{
    match raw {
        RawExprKind::Literal(_) => true,
        RawExprKind::Read(read) => is_side_part(read.part, raw_read_kind(symbols, scope, read)),
        RawExprKind::Not(_) => false,
        RawExprKind::Negate(_) => false,
        RawExprKind::Binary { .. } => false,
    }
}

/// Notes a side that is none.
fn note_side(
    symbols: &Symbols,
    scope: &BodyScope,
    raw: &RawExpr,
    found: &mut Option<Diagnostic<Cause>>,
)
    ensures { found.new ≡ noted found.old (side_diagnostics symbols.now scope.now raw.now) }
{
    if !is_side(symbols, scope, &raw.what) {
        note(found, raw.at, Cause::NotLinear);
    }
}

/// The side that is meant; of one with something wrong, any.
fn side_of(symbols: &Symbols, scope: &BodyScope, raw: &RawExprKind) -> Simple
    ensures { result ≡ side_of symbols.now scope.now raw.now }
{
    match raw {
        RawExprKind::Literal(literal) => Simple::Literal(literal_value(&symbols.enums, literal)),
        RawExprKind::Read(read) => Simple::Operand(read_operand(symbols, scope, read)),
        RawExprKind::Not(_) => Simple::Literal(Value::Truth(false)),
        RawExprKind::Negate(_) => Simple::Literal(Value::Truth(false)),
        RawExprKind::Binary { .. } => Simple::Literal(Value::Truth(false)),
    }
}

// ---- comparisons

/// Whether a type is that of whole numbers.
fn is_int(kind: Option<Kind>) -> bool
    ensures { result ≡ is_int kind }
{
    match kind {
        Some(Kind::Int) => true,
        _ => false,
    }
}

/// Whether whole numbers are compared, as the left side tells, or the right one where the left has no type.
fn are_numbers(left: Option<Kind>, right: Option<Kind>) -> bool
    ensures { result ≡ are_numbers left right }
{
    match left {
        None => is_int(right),
        Some(_) => is_int(left),
    }
}

/// Whether a comparison is one of linear forms.
fn compares_forms(how: Comparison, left: Option<Kind>, right: Option<Kind>) -> bool
    ensures { result ≡ compares_forms how left right }
{
    match how {
        Comparison::Equal | Comparison::Unequal => are_numbers(left, right),
        Comparison::Less | Comparison::AtMost | Comparison::More | Comparison::AtLeast => true,
    }
}

/// Whether a comparison is `==`.
fn is_equal(how: Comparison) -> bool
    ensures { result ≡ is_equal how }
{
    match how {
        Comparison::Equal => true,
        Comparison::Unequal
        | Comparison::Less
        | Comparison::AtMost
        | Comparison::More
        | Comparison::AtLeast => false,
    }
}

/// Makes a comparison of linear forms.
#[tactic(auto, using(diagnostics::specs::NotedInTurn::noted_appended))]
fn forms(
    alloc: Global,
    symbols: &Symbols,
    scope: &BodyScope,
    how: Comparison,
    left: &RawExpr,
    right: &RawExpr,
    found: &mut Option<Diagnostic<Cause>>,
) -> Result<Cond, OutOfMemory>
    ensures { IfOk result (MakesComparison symbols.now scope.now how left.now right.now true found.old found.new) }
{
    let left = linear(alloc, FormUse::Comparison, symbols, scope, left, found)?;
    let right = linear(alloc, FormUse::Comparison, symbols, scope, right, found)?;
    Ok(Cond::Compare { left, how, right })
}

/// Makes an equality of two sides.
#[tactic(auto, using(diagnostics::specs::NotedInTurn::noted_appended))]
fn sides(
    symbols: &Symbols,
    scope: &BodyScope,
    how: Comparison,
    left: &RawExpr,
    right: &RawExpr,
    found: &mut Option<Diagnostic<Cause>>,
) -> Cond
    ensures { MakesComparison symbols.now scope.now how left.now right.now false found.old found.new result }
{
    note_side(symbols, scope, left, found);
    note_side(symbols, scope, right, found);
    Cond::Same {
        left: side_of(symbols, scope, &left.what),
        right: side_of(symbols, scope, &right.what),
        equal: is_equal(how),
    }
}

/// Whether two expressions are compared as linear forms.
fn forms_compared(
    symbols: &Symbols,
    scope: &BodyScope,
    how: Comparison,
    left: &RawExpr,
    right: &RawExpr,
) -> bool
    ensures { result ≡ forms_compared symbols.now scope.now how left.now right.now }
{
    let left = raw_kind(symbols, scope, &left.what);
    let right = raw_kind(symbols, scope, &right.what);
    compares_forms(how, left, right)
}

/// Makes a comparison, and notes what of it is not of the form.
fn comparison(
    alloc: Global,
    symbols: &Symbols,
    scope: &BodyScope,
    how: Comparison,
    left: &RawExpr,
    right: &RawExpr,
    found: &mut Option<Diagnostic<Cause>>,
) -> Result<Cond, OutOfMemory>
    ensures { IfOk result (MakesCompared symbols.now scope.now how left.now right.now found.old found.new) }
{
    if forms_compared(symbols, scope, how, left, right) {
        forms(alloc, symbols, scope, how, left, right, found)
    } else {
        Ok(sides(symbols, scope, how, left, right, found))
    }
}

// ---- parts that are truths

/// Whether a type is that of truths, or there is none.
fn is_truth(kind: Option<Kind>) -> bool
    ensures { result ≡ is_truth kind }
{
    match kind {
        None => true,
        Some(Kind::Truth) => true,
        Some(Kind::Int) => false,
        Some(Kind::Enum(_)) => false,
    }
}

/// Notes a part that is no truth.
fn note_truth(kind: Option<Kind>, at: Place, found: &mut Option<Diagnostic<Cause>>)
    ensures { found.new ≡ noted found.old (refused_unless (is_truth kind) NotLinear at) }
{
    if !is_truth(kind) {
        note(found, at, Cause::NotLinear);
    }
}

/// The truth that a literal is; of any other, false.
fn literal_truth(literal: &RawLiteralKind) -> bool
    ensures { result ≡ literal_truth literal.now }
{
    match literal {
        RawLiteralKind::Truth(truth) => *truth,
        _ => false,
    }
}
// ---- conditions

/// Notes an expression that is no part of a condition, which then means nothing.
fn no_condition(at: Place, found: &mut Option<Diagnostic<Cause>>) -> Cond
    ensures { Makes (Literal false) (at_place NotLinear at) found.old found.new result }
{
    note(found, at, Cause::NotLinear);
    Cond::Literal(false)
}

/// Whether an operator joins two conditions, and then whether one of them is enough.
fn junction(operator: Operator) -> Option<bool>
    ensures { result ≡ junction operator }
{
    match operator {
        Operator::Or => Some(true),
        Operator::And => Some(false),
        Operator::Compare(_)
        | Operator::Plus
        | Operator::Minus
        | Operator::Times
        | Operator::Divide
        | Operator::Remainder => None,
    }
}

/// Two conditions, of which one or both have to hold.
fn joint(alloc: Global, is_or: bool, left: Cond, right: Cond) -> Result<Cond, OutOfMemory>
    ensures { IfOk result (λ made. made ≡ joint_of is_or left right) }
{
    let left = Boxed::new(alloc, left)?;
    let right = Boxed::new(alloc, right)?;
    if is_or {
        Ok(Cond::Or(left, right))
    } else {
        Ok(Cond::And(left, right))
    }
}

/// Makes the condition of an operator that joins no conditions.
fn no_junction(
    alloc: Global,
    symbols: &Symbols,
    scope: &BodyScope,
    at: Place,
    operator: Operator,
    left: &RawExpr,
    right: &RawExpr,
    found: &mut Option<Diagnostic<Cause>>,
) -> Result<Cond, OutOfMemory>
    ensures { IfOk result (MakesPlainOperator symbols.now scope.now at operator left.now right.now found.old found.new) }
{
    match operator {
        Operator::Compare(how) => comparison(alloc, symbols, scope, how, left, right, found),
        Operator::Or
        | Operator::And
        | Operator::Plus
        | Operator::Minus
        | Operator::Times
        | Operator::Divide
        | Operator::Remainder => Ok(no_condition(at, found)),
    }
}

/// Makes a condition, and notes the parts that are not of its form. It goes over the condition once.
fn condition(
    alloc: Global,
    symbols: &Symbols,
    scope: &BodyScope,
    raw: &RawExpr,
    found: &mut Option<Diagnostic<Cause>>,
) -> Result<Cond, OutOfMemory>
    ensures { IfOk result (Makes (cond_of symbols.now scope.now raw.now) (cond_diagnostics symbols.now scope.now raw.now) found.old found.new) }
{
    match &raw.what {
        RawExprKind::Literal(literal) => {
            note_truth(literal_kind(&symbols.enums, literal), raw.at, found);
            Ok(Cond::Literal(literal_truth(literal)))
        }
        RawExprKind::Read(read) => {
            note_truth(raw_read_kind(symbols, scope, read), raw.at, found);
            Ok(Cond::Flag(read_operand(symbols, scope, read)))
        }
        RawExprKind::Not(inner) => {
            let inner = inner.get();
            let made = condition(alloc, symbols, scope, inner, found)?;
            Ok(Cond::Not(Boxed::new(alloc, made)?))
        }
        RawExprKind::Negate(_) => Ok(no_condition(raw.at, found)),
        RawExprKind::Binary {
            operator,
            left,
            right,
        } => {
            let left = left.get();
            let right = right.get();
            match junction(*operator) {
                Some(is_or) => {
                    let made_left = condition(alloc, symbols, scope, left, found)?;
                    let made_right = condition(alloc, symbols, scope, right, found)?;
                    joint(alloc, is_or, made_left, made_right)
                }
                None => no_junction(alloc, symbols, scope, raw.at, *operator, left, right, found),
            }
        }
    }
}
/// Makes the condition of a `wait until`, and notes what is wrong with it.
#[tactic(auto, using(diagnostics::specs::NotedInTurn::noted_appended))]
pub(crate) fn wait(
    alloc: Global,
    symbols: &Symbols,
    scope: &BodyScope,
    raw: &RawExpr,
    found: &mut Option<Diagnostic<Cause>>,
) -> Result<Cond, OutOfMemory>
    ensures { IfOk result (Makes (cond_of symbols.now scope.now raw.now) (wait_diagnostics symbols.now scope.now raw.now) found.old found.new) }
{
    let _as_expression = expression(alloc, symbols, scope, raw, found)?;
    note_unless_wanted(symbols, scope, Kind::Truth, raw, found);
    condition(alloc, symbols, scope, raw, found)
}
