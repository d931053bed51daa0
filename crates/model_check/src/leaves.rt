//! The leaves of linear forms.

ghost use Rattle.std.specs.Prelude.{◌≡◌, Some, IfSome};
ghost use Rattle.aerie_base.specs.Ranges.{IsNumber};
ghost use Rattle.model_check.specs.LinearForms.{is_whole_number, is_counter_sort, is_summed_part, may_stand, is_leaf_read, unfit_leaf, constant_leaf, coefficient_wrong, signed_by, read_leaf, no_number_leaf, literal_leaf, literal_number, plain_number, negated_number, signed_number, read_in, product_leaf};

use crate::causes::Cause;
use crate::cell_reads::{raw_read_kind, read_operand};
use crate::literals::literal_kind;
use crate::scopes::BodyScope;
use crate::symbols::{CellSort, CellSymbol, Symbols};
use aerie_base::{Kind, Operator, OutOfMemory, Place, Term};
use diagnostics::Diagnostic;
use model_reader::{RawExpr, RawExprKind, RawLiteralKind, RawPart, RawRead};
use std::alloc::Global;

/// The greatest coefficient, and the least without its sign.
const COEFFICIENT_LIMIT: i64 = 1_000_000;

/// A part of a sum: a number, or a read with a coefficient.
#[derive(Clone, Copy)]
pub(crate) struct Leaf {
    /// The place of its first token; a sign in front of it is no part of it.
    pub at: Place,
    /// What is wrong with it.
    pub wrong: Option<Diagnostic<Cause>>,
    /// The read with its coefficient, where it is one.
    pub term: Option<Term>,
    /// The number, where it is one, and else 0.
    pub constant: i64,
}

/// Where a linear form stands.
#[derive(Clone, Copy)]
pub(crate) enum FormUse {
    /// On a side of a comparison in a condition.
    Comparison,
    /// In a linear resource.
    Resource,
}

// ---- which reads are leaves

/// Whether a type is that of whole numbers, or there is none.
fn is_whole_number(kind: Option<Kind>) -> bool
    ensures { result ≡ is_whole_number kind }
{
    match kind {
        None => true,
        Some(Kind::Int) => true,
        Some(_) => false,
    }
}

/// Whether a cell by its name alone may stand in a resource.
fn is_counter_sort(sort: CellSort) -> bool
    ensures { result ≡ is_counter_sort sort }
{
    match sort {
        CellSort::Register(_) => false,
        _ => true,
    }
}

/// Whether a part of a cell may stand in a resource.
fn is_summed_part(part: RawPart, cell: Option<(usize, CellSymbol)>) -> bool
    ensures { result ≡ is_summed_part part cell }
{
    match part {
        RawPart::Whole => match cell {
            None => true,
            Some((_, cell)) => is_counter_sort(cell.sort),
        },
        RawPart::Volume => true,
        RawPart::Rate | RawPart::Conflicted => false,
    }
}

/// Whether a read may stand there.
fn may_stand(use_: FormUse, symbols: &Symbols, read: &RawRead) -> bool
    ensures { result ≡ may_stand use_ symbols.now read.now }
{
    match use_ {
        FormUse::Comparison => true,
        FormUse::Resource => is_summed_part(read.part, symbols.cells.entry(&read.name.name)),
    }
}

/// Whether a read is a whole number that may stand there.
fn is_leaf_read(use_: FormUse, symbols: &Symbols, scope: &BodyScope, read: &RawRead) -> bool
    ensures { result ≡ is_leaf_read use_ symbols.now scope.now read.now }
{
    match raw_read_kind(symbols, scope, read) {
        None => true,
        Some(kind) => is_whole_number(Some(kind)) && may_stand(use_, symbols, read),
    }
}

// ---- numbers

/// The number with this sign.
pub(crate) fn signed_by(negative: bool, number: i64) -> i64
    requires { IsNumber number }
    ensures value { result ≡ signed_by negative number }
    ensures range { IsNumber result }
{
    if negative { -number } else { number }
}

/// The number that a literal is.
fn literal_number(literal: &RawLiteralKind) -> Option<i64>
    ensures value { result ≡ literal_number literal.now }
    ensures range { IfSome result (λ number. IsNumber number) }
{
    match literal {
        RawLiteralKind::Number(number) => Some(number.get()),
        _ => None,
    }
}

/// The number of a literal without a sign.
pub(crate) fn plain_number(raw: &RawExprKind) -> Option<i64>
    ensures value { result ≡ plain_number raw.now }
    ensures range { IfSome result (λ number. IsNumber number) }
{
    match raw {
        RawExprKind::Literal(literal) => literal_number(literal),
        _ => None,
    }
}

/// The number with the other sign.
fn negated_number(number: Option<i64>) -> Option<i64>
    requires { IfSome number (λ number. IsNumber number) }
    ensures value { result ≡ negated_number number }
    ensures range { IfSome result (λ number. IsNumber number) }
{
    match number {
        Some(number) => Some(signed_by(true, number)),
        None => None,
    }
}

/// The number of a literal, which may have one minus.
#[tactic(auto, using(crate::proofs::LeafForms::negated_literal))]
fn signed_number(raw: &RawExprKind) -> Option<i64>
    ensures value { result ≡ signed_number raw.now }
    ensures range { IfSome result (λ number. IsNumber number) }
{
    match raw {
        RawExprKind::Literal(literal) => literal_number(literal),
        RawExprKind::Negate(inner) => negated_number(plain_number(&inner.get().what)),
        RawExprKind::Read(_) => None,
        RawExprKind::Not(_) => None,
        RawExprKind::Binary { .. } => None,
    }
}

// ---- leaves

/// A part that is not of the form.
pub(crate) fn unfit_leaf(at: Place) -> Leaf
    ensures { result ≡ unfit_leaf at }
{
    let wrong = Diagnostic {
        place: at,
        cause: Cause::NotLinear,
    };
    Leaf {
        at,
        wrong: Some(wrong),
        term: None,
        constant: 0,
    }
}

/// A number.
pub(crate) fn constant_leaf(use_: FormUse, at: Place, number: i64) -> Leaf
    ensures { result ≡ constant_leaf use_ at number }
{
    let wrong = match use_ {
        FormUse::Comparison => None,
        FormUse::Resource => Some(Diagnostic {
            place: at,
            cause: Cause::NotLinear,
        }),
    };
    Leaf {
        at,
        wrong,
        term: None,
        constant: number,
    }
}

/// What is wrong with a coefficient.
fn coefficient_wrong(at: Place, coefficient: i64) -> Option<Diagnostic<Cause>>
    ensures { result ≡ coefficient_wrong at coefficient }
{
    if -COEFFICIENT_LIMIT <= coefficient && coefficient <= COEFFICIENT_LIMIT {
        None
    } else {
        Some(Diagnostic {
            place: at,
            cause: Cause::OutOfRange,
        })
    }
}

/// A read with its coefficient.
pub(crate) fn read_leaf(
    use_: FormUse,
    symbols: &Symbols,
    scope: &BodyScope,
    at: Place,
    coefficient_at: Place,
    negative: bool,
    coefficient: i64,
    read: &RawRead,
) -> Leaf
    requires { IsNumber coefficient }
    ensures { result ≡ read_leaf use_ symbols.now scope.now at coefficient_at negative coefficient read.now }
{
    if !is_leaf_read(use_, symbols, scope, read) {
        return unfit_leaf(at);
    }
    Leaf {
        at,
        wrong: coefficient_wrong(coefficient_at, coefficient),
        term: Some(Term {
            coefficient: signed_by(negative, coefficient),
            operand: read_operand(symbols, scope, read),
        }),
        constant: 0,
    }
}

/// A literal that is no number, where its enumeration is known.
fn no_number_leaf(at: Place, kind: Option<Kind>) -> Leaf
    ensures { result ≡ no_number_leaf at kind }
{
    match kind {
        Some(_) => unfit_leaf(at),
        None => Leaf {
            at,
            wrong: None,
            term: None,
            constant: 0,
        },
    }
}

/// A literal.
pub(crate) fn literal_leaf(
    use_: FormUse,
    symbols: &Symbols,
    at: Place,
    negative: bool,
    literal: &RawLiteralKind,
) -> Leaf
    ensures { result ≡ literal_leaf use_ symbols.now at negative literal.now }
{
    match literal {
        RawLiteralKind::Number(number) => constant_leaf(
            use_,
            at,
            signed_by(negative, number.get()),
        ),
        RawLiteralKind::Truth(_) => unfit_leaf(at),
        RawLiteralKind::Variant { .. } => no_number_leaf(at, literal_kind(&symbols.enums, literal)),
    }
}

/// A product, which is a leaf where it is a literal times a read.
pub(crate) fn product_leaf(
    use_: FormUse,
    symbols: &Symbols,
    scope: &BodyScope,
    at: Place,
    negative: bool,
    left: &RawExpr,
    right: &RawExpr,
) -> Leaf
    ensures { result ≡ product_leaf use_ symbols.now scope.now at negative left.now.at (signed_number left.now.what) (read_in right.now.what) }
{
    match signed_number(&left.what) {
        None => unfit_leaf(at),
        Some(coefficient) => match &right.what {
            RawExprKind::Read(read) => {
                read_leaf(
                    use_,
                    symbols,
                    scope,
                    at,
                    left.at,
                    negative,
                    coefficient,
                    read,
                )
            }
            RawExprKind::Literal(_)
            | RawExprKind::Not(_)
            | RawExprKind::Negate(_)
            | RawExprKind::Binary { .. } => unfit_leaf(at),
        },
    }
}
