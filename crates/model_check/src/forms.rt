//! Linear forms are judged and made.

ghost use Rattle.std.specs.Prelude.{◌≡◌, ◌≤◌, ◌++◌, IfOk, length, nat_lt, option_to_list, take};
ghost use Rattle.aerie_base.specs.models.Limits.{term_limit};
ghost use Rattle.diagnostics.specs.Diagnostics.{refused_unless};
ghost use Rattle.model_check.specs.Diagnostics.{noted};
ghost use Rattle.model_check.specs.LinearForms.{plain_number, negated_leaf, sum_sign, joint_sign, operator_leaf, leaves_of, leaf_diagnostics, leaves_diagnostics, terms_in, constants_in, sum_of_leaves};
ghost use Rattle.model_check.specs.declared.causes.Cause.TheVariants.{TooManyTerms};
ghost use Rattle.model_check.specs.Making.{MakesForm};

use crate::causes::Cause;
use crate::leaves::{
    FormUse, Leaf, constant_leaf, literal_leaf, plain_number, product_leaf, read_leaf, signed_by,
    unfit_leaf,
};
use crate::scopes::BodyScope;
use crate::symbols::Symbols;
use aerie_base::{Linear, List, Operator, OutOfMemory, Place, Term};
use diagnostics::{Diagnostic, note};
use model_reader::{RawExpr, RawExprKind};
use std::alloc::Global;

/// The most leaves of a form.
const TERM_LIMIT: usize = 16;

/// Whether an operator makes a sum of its sides, and then whether it negates the right one.
fn sum_sign(operator: Operator) -> Option<bool>
    ensures { result ≡ sum_sign operator }
{
    match operator {
        Operator::Plus => Some(false),
        Operator::Minus => Some(true),
        Operator::Times
        | Operator::Or
        | Operator::And
        | Operator::Compare(_)
        | Operator::Divide
        | Operator::Remainder => None,
    }
}

/// Whether one of two signs is a minus.
fn joint_sign(minus: bool, negative: bool) -> bool
    ensures { result ≡ joint_sign minus negative }
{
    if minus { !negative } else { negative }
}

/// The leaf that an operator makes with its sides.
fn operator_leaf(
    use_: FormUse,
    symbols: &Symbols,
    scope: &BodyScope,
    at: Place,
    negative: bool,
    operator: Operator,
    left: &RawExpr,
    right: &RawExpr,
) -> Leaf
    ensures { result ≡ operator_leaf use_ symbols.now scope.now at negative operator left.now right.now }
{
    match operator {
        Operator::Times => product_leaf(use_, symbols, scope, at, negative, left, right),
        Operator::Plus
        | Operator::Minus
        | Operator::Or
        | Operator::And
        | Operator::Compare(_)
        | Operator::Divide
        | Operator::Remainder => unfit_leaf(at),
    }
}

/// The leaf of a literal behind a minus, at which it begins.
fn negated_leaf(use_: FormUse, at: Place, negative: bool, inner: &RawExprKind) -> Option<Leaf>
    ensures { result ≡ negated_leaf use_ at negative (plain_number inner.now) }
{
    match plain_number(inner) {
        Some(number) => Some(constant_leaf(use_, at, signed_by(!negative, number))),
        None => None,
    }
}

/// Puts the leaves of a form behind others. It goes over the form once.
fn collect(
    use_: FormUse,
    symbols: &Symbols,
    scope: &BodyScope,
    raw: &RawExpr,
    negative: bool,
    leaves: &mut List<Leaf>,
) -> Result<(), OutOfMemory>
    ensures { IfOk result (λ _. leaves.new ≡ leaves.old ++ leaves_of use_ symbols.now scope.now raw.now negative) }
{
    match &raw.what {
        RawExprKind::Literal(literal) => {
            leaves.push(literal_leaf(use_, symbols, raw.at, negative, literal))
        }
        RawExprKind::Read(read) => leaves.push(read_leaf(
            use_, symbols, scope, raw.at, raw.at, negative, 1, read,
        )),
        RawExprKind::Not(_) => leaves.push(unfit_leaf(raw.at)),
        RawExprKind::Negate(inner) => {
            let inner = inner.get();
            match negated_leaf(use_, raw.at, negative, &inner.what) {
                Some(leaf) => leaves.push(leaf),
                None => collect(use_, symbols, scope, inner, !negative, leaves),
            }
        }
        RawExprKind::Binary {
            operator,
            left,
            right,
        } => {
            let left = left.get();
            let right = right.get();
            match sum_sign(*operator) {
                Some(minus) => {
                    collect(use_, symbols, scope, left, negative, leaves)?;
                    collect(
                        use_,
                        symbols,
                        scope,
                        right,
                        joint_sign(minus, negative),
                        leaves,
                    )
                }
                None => {
                    let leaf = operator_leaf(
                        use_, symbols, scope, raw.at, negative, *operator, left, right,
                    );
                    leaves.push(leaf)
                }
            }
        }
    }
}

/// Notes what is wrong, where something is.
fn note_wrong(wrong: Option<Diagnostic<Cause>>, found: &mut Option<Diagnostic<Cause>>)
    ensures { found.new ≡ noted found.old (option_to_list wrong) }
{
    if let Some(wrong) = wrong {
        note(found, wrong.place, wrong.cause);
    }
}

/// Notes a leaf behind so many others that it is one too many.
fn note_too_many(at: Place, before: usize, found: &mut Option<Diagnostic<Cause>>)
    ensures { found.new ≡ noted found.old (refused_unless (nat_lt before term_limit) TooManyTerms at) }
{
    if TERM_LIMIT <= before {
        note(found, at, Cause::TooManyTerms);
    }
}

/// Notes what is wrong with a leaf behind so many others.
#[tactic(auto, using(diagnostics::specs::NotedInTurn::noted_appended))]
fn note_leaf(leaf: &Leaf, before: usize, found: &mut Option<Diagnostic<Cause>>)
    ensures { found.new ≡ noted found.old (leaf_diagnostics before leaf.now) }
{
    note_wrong(leaf.wrong, found);
    note_too_many(leaf.at, before, found);
}

/// Notes what is wrong with the leaves of a form.
fn note_leaves(leaves: &[Leaf], found: &mut Option<Diagnostic<Cause>>)
    ensures { found.new ≡ noted found.old (leaves_diagnostics 0 leaves.now) }
{
    for index in 0..leaves.len() {
        note_leaf(&leaves[index], index, found);
    }
}

/// Adds the read of a leaf, where it is one.
fn push_term(terms: &mut List<Term>, leaf: &Leaf) -> Result<(), OutOfMemory>
    ensures { IfOk result (λ _. terms.new ≡ terms.old ++ option_to_list leaf.now.term) }
{
    if let Some(term) = leaf.term {
        terms.push(term)?;
    }
    Ok(())
}

/// The reads among the leaves.
fn terms_in(alloc: Global, leaves: &[Leaf]) -> Result<List<Term>, OutOfMemory>
    ensures { IfOk result (λ terms. terms ≡ terms_in leaves.now) }
{
    let mut terms = List::new(alloc);
    for leaf in leaves {
        push_term(&mut terms, leaf)?;
    }
    Ok(terms)
}

/// The sum of the numbers among a few leaves.
fn constants_in(leaves: &[Leaf]) -> i128
    requires { length leaves.now ≤ term_limit }
    ensures { result ≡ constants_in leaves.now }
{
    let mut sum = 0;
    for leaf in leaves {
        sum += i128::from(leaf.constant);
    }
    sum
}

/// The sum of the first leaves, as many as there may be.
fn sum_of(alloc: Global, leaves: &[Leaf]) -> Result<Linear, OutOfMemory>
    ensures { IfOk result (λ form. form ≡ sum_of_leaves (take term_limit leaves.now)) }
{
    let first = &leaves[..leaves.len().min(TERM_LIMIT)];
    let terms = terms_in(alloc, first)?;
    let constant = constants_in(first);
    Ok(Linear { terms, constant })
}

/// Makes a linear form, and notes what is wrong with its leaves.
pub(crate) fn linear(
    alloc: Global,
    use_: FormUse,
    symbols: &Symbols,
    scope: &BodyScope,
    raw: &RawExpr,
    found: &mut Option<Diagnostic<Cause>>,
) -> Result<Linear, OutOfMemory>
    ensures { IfOk result (MakesForm use_ symbols.now scope.now raw.now found.old found.new) }
{
    let mut leaves = List::new(alloc);
    collect(use_, symbols, scope, raw, false, &mut leaves)?;
    note_leaves(leaves.as_slice(), found);
    sum_of(alloc, leaves.as_slice())
}
