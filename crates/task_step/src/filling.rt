//! The condition of a waiting task, with the locals filled in.

ghost use Rattle.std.specs.Prelude.{◌≡◌, ◌≤◌, ◌*ℤ◌, pos, [], ◌++◌, IsTrue, IfOk, OnOk, length, unsigned_abs};
ghost use Rattle.std.specs.List.{list_all};
ghost use Rattle.aerie_base.specs.Ranges.{IsNumber};
ghost use Rattle.aerie_base.specs.conditions.Filling.{filled, filled_operand, filled_side, with_cell, cell_terms, local_part, local_parts, filled_linear, flag_of};
ghost use Rattle.aerie_base.specs.models.Conditions.{is_coefficient};
ghost use Rattle.aerie_base.specs.conditions.Holding.{local_value};
ghost use Rattle.task_step.specs.Fillable.{IsConditionOfSome, is_modest_sum, is_fillable_by_fold, filled_by_fold};

use aerie_base::{
    Boxed, Cond, Linear, List, Number, Operand, OutOfMemory, Simple, Term, Value, number_in,
    truth_in,
};
use std::alloc::Global;

/// The number 0.
fn nothing() -> Number
    ensures { result ≡ pos 0 }
{
    Number::new(0).unwrap()
}

/// The value of a local; one that is not set has 0.
fn local_value(locals: &[Value], slot: u16) -> Value
    ensures { result ≡ local_value locals.now slot }
{
    match locals.get(usize::from(slot)) {
        Some(value) => *value,
        None => Value::Int(nothing()),
    }
}

/// A literal for a local, and a read as it is.
fn filled_operand(operand: Operand, locals: &[Value]) -> Simple
    ensures { result ≡ filled_operand locals.now operand }
{
    match operand {
        Operand::Read(read) => Simple::Operand(Operand::Read(read)),
        Operand::Local(slot) => Simple::Literal(local_value(locals, slot)),
    }
}

/// A side of an equality.
fn filled_side(side: Simple, locals: &[Value]) -> Simple
    ensures { result ≡ filled_side locals.now side }
{
    match side {
        Simple::Literal(value) => Simple::Literal(value),
        Simple::Operand(operand) => filled_operand(operand, locals),
    }
}

/// A truth by itself.
fn filled_flag(operand: Operand, locals: &[Value]) -> Cond
    ensures { result ≡ flag_of (filled_operand locals.now operand) }
{
    match operand {
        Operand::Read(read) => Cond::Flag(Operand::Read(read)),
        Operand::Local(slot) => Cond::Literal(truth_in(&local_value(locals, slot))),
    }
}

/// Keeps a term of a cell, and leaves out one of a local.
fn keep(kept: &mut List<Term>, term: &Term) -> Result<(), OutOfMemory>
    ensures { OnOk result (kept.new ≡ kept.old ++ with_cell term.now.operand term.now []) }
{
    match term.operand {
        Operand::Read(_) => kept.push(*term),
        Operand::Local(_) => Ok(()),
    }
}

/// The terms of cells.
fn cell_terms(alloc: Global, terms: &[Term]) -> Result<List<Term>, OutOfMemory>
    ensures { IfOk result (λ kept. kept ≡ cell_terms terms.now) }
{
    let mut kept = List::new(alloc);
    for term in terms {
        keep(&mut kept, term)?;
    }
    Ok(kept)
}

/// A number multiplied by a coefficient.
#[tactic(auto, using(crate::proofs::Fillings::product_within))]
fn product(coefficient: i64, number: i128) -> i128
    requires coefficient { unsigned_abs coefficient ≤ 1_000_000 }
    requires number { IsNumber number }
    ensures value { result ≡ coefficient *ℤ number }
    ensures small { unsigned_abs result ≤ 1_000_000_000_000_000_000_000_000 }
{
    i128::from(coefficient) * number
}

/// What a term of a local adds; one of a cell adds nothing.
fn local_part(term: &Term, locals: &[Value]) -> i128
    requires { IsTrue (is_coefficient term.now) }
    ensures value { result ≡ local_part locals.now term.now.operand term.now.coefficient }
    ensures small { unsigned_abs result ≤ 1_000_000_000_000_000_000_000_000 }
{
    match term.operand {
        Operand::Read(_) => 0,
        Operand::Local(slot) => product(
            term.coefficient,
            i128::from(number_in(&local_value(locals, slot))),
        ),
    }
}

/// What the terms of locals add.
fn local_parts(terms: &[Term], locals: &[Value]) -> i128
    requires few { length terms.now ≤ 16 }
    requires coefficients { IsTrue (list_all is_coefficient terms.now) }
    ensures value { result ≡ local_parts locals.now terms.now }
    ensures small { unsigned_abs result ≤ 16_000_000_000_000_000_000_000_000 }
{
    let mut sum = 0;
    for term in terms {
        sum += local_part(term, locals);
    }
    sum
}

/// A linear form.
fn filled_linear(alloc: Global, form: &Linear, locals: &[Value]) -> Result<Linear, OutOfMemory>
    requires { IsTrue (is_modest_sum form.now) }
    ensures { IfOk result (λ filled. filled ≡ filled_linear locals.now form.now) }
{
    let terms = form.terms.as_slice();
    let constant = form.constant + local_parts(terms, locals);
    Ok(Linear {
        terms: cell_terms(alloc, terms)?,
        constant,
    })
}

/// The condition with the locals filled in, which then reads cells alone.
pub(crate) fn fill(alloc: Global, condition: &Cond, locals: &[Value]) -> Result<Cond, OutOfMemory>
    requires { IsConditionOfSome condition.now }
    ensures { IfOk result (λ filled_condition. filled_condition ≡ filled condition.now locals.now) }
{
    fill_by_fold(alloc, condition, locals)
}

/// The same over the fold, which is the form for a proof of the recursion.
fn fill_by_fold(alloc: Global, condition: &Cond, locals: &[Value]) -> Result<Cond, OutOfMemory>
    requires { IsTrue (is_fillable_by_fold condition.now) }
    ensures { IfOk result (λ whole. whole ≡ filled_by_fold condition.now locals.now) }
{
    match condition {
        Cond::Literal(truth) => Ok(Cond::Literal(*truth)),
        Cond::Flag(operand) => Ok(filled_flag(*operand, locals)),
        Cond::Same { left, right, equal } => Ok(Cond::Same {
            left: filled_side(*left, locals),
            right: filled_side(*right, locals),
            equal: *equal,
        }),
        Cond::Compare { left, how, right } => Ok(Cond::Compare {
            left: filled_linear(alloc, left, locals)?,
            how: *how,
            right: filled_linear(alloc, right, locals)?,
        }),
        Cond::Not(part) => {
            let part = fill_by_fold(alloc, part.get(), locals)?;
            Ok(Cond::Not(Boxed::new(alloc, part)?))
        }
        Cond::And(left, right) => {
            let left = fill_by_fold(alloc, left.get(), locals)?;
            let left = Boxed::new(alloc, left)?;
            let right = fill_by_fold(alloc, right.get(), locals)?;
            Ok(Cond::And(left, Boxed::new(alloc, right)?))
        }
        Cond::Or(left, right) => {
            let left = fill_by_fold(alloc, left.get(), locals)?;
            let left = Boxed::new(alloc, left)?;
            let right = fill_by_fold(alloc, right.get(), locals)?;
            Ok(Cond::Or(left, Boxed::new(alloc, right)?))
        }
    }
}
