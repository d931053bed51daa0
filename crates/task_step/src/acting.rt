//! The statements without blocks, each as its definition says.

ghost use Rattle.std.specs.Prelude.{◌≡◌, ◌<◌, true, length, IfOk, IsTrue, Some};
ghost use Rattle.aerie_base.specs.declared.statements.Stmt.{out-Stmt};
ghost use Rattle.aerie_base.specs.declared.statements.Stmt.TheOpen.Stmt-F.{Assign, Emit, Delay, WaitUntil, Spawn, Call, Return};
ghost use Rattle.aerie_base.specs.statements.Places.{is_simple};
ghost use Rattle.run_data.specs.Steps.{emission_expr};
ghost use Rattle.task_step.specs.Doable.{HasType, have_types, IsDoable, cells_of};
ghost use Rattle.task_step.specs.Fillable.{IsConditionOfSome};
ghost use Rattle.task_step.specs.Moves.{ActsAs};
ghost use Rattle.task_step.specs.OwnCells.{most_items};

use crate::arguments::values;
use crate::ends::{End, delay_of};
use crate::filling::fill;
use crate::statement_parts::{effect_of, emission_expr};
use crate::step_state::StepState;
use aerie_base::{Cond, Emission, Expr, OutOfMemory, Shared, Stmt};
use std::alloc::Global;

/// `let` and `=`.
fn act_set(slot: u16, expr: &Expr, so_far: &mut StepState) -> Option<End>
    requires slot { slot < length so_far.old.locals }
    requires typed { HasType so_far.old expr.now }
    ensures { ActsAs (Assign slot expr.now) so_far.old result so_far.new }
{
    match so_far.value(expr) {
        Err(fault) => Some(End::Faulted(fault)),
        Ok(value) => {
            so_far.assign(slot, value);
            None
        }
    }
}

/// `+=` and `:=`.
fn act_emit(
    alloc: Global,
    cell: u16,
    what: &Emission,
    so_far: &mut StepState,
) -> Result<Option<End>, OutOfMemory>
    requires cell { cell < length (cells_of so_far.old) }
    requires typed { HasType so_far.old (emission_expr what.now) }
    requires few { length so_far.old.items < most_items }
    ensures { IfOk result (λ end. ActsAs (Emit cell what.now) so_far.old end so_far.new) }
{
    match so_far.value(emission_expr(what)) {
        Err(fault) => Ok(Some(End::Faulted(fault))),
        Ok(value) => {
            so_far.emit(alloc, cell, effect_of(what, &value))?;
            Ok(None)
        }
    }
}

/// `delay`
fn act_delay(expr: &Expr, so_far: &mut StepState) -> End
    requires typed { HasType so_far.old expr.now }
    ensures { ActsAs (Delay expr.now) so_far.old (Some result) so_far.new }
{
    match so_far.value(expr) {
        Err(fault) => End::Faulted(fault),
        Ok(value) => delay_of(&value),
    }
}

/// `wait until`
fn act_wait(alloc: Global, condition: &Cond, so_far: &StepState) -> Result<End, OutOfMemory>
    requires { IsConditionOfSome condition.now }
    ensures { IfOk result (λ end. ActsAs (WaitUntil condition.now) so_far.now (Some end) so_far.now) }
{
    let condition = fill(alloc, condition, so_far.locals())?;
    Ok(End::Waiting(Shared::new(alloc, condition)?))
}

/// `spawn`
fn act_spawn(
    alloc: Global,
    child: u16,
    arguments: &[Expr],
    so_far: &mut StepState,
) -> Result<Option<End>, OutOfMemory>
    requires typed { IsTrue (have_types so_far.old arguments.now) }
    requires few { length so_far.old.items < most_items }
    ensures { IfOk result (λ end. ActsAs (Spawn child arguments.now) so_far.old end so_far.new) }
{
    match values(alloc, arguments, so_far)? {
        Err(fault) => Ok(Some(End::Faulted(fault))),
        Ok(list) => {
            so_far.make_child(child, list)?;
            Ok(None)
        }
    }
}

/// `call`
fn act_call(
    alloc: Global,
    child: u16,
    arguments: &[Expr],
    into: Option<u16>,
    so_far: &mut StepState,
) -> Result<End, OutOfMemory>
    requires typed { IsTrue (have_types so_far.old arguments.now) }
    requires few { length so_far.old.items < most_items }
    ensures { IfOk result (λ end. ActsAs (Call child arguments.now into) so_far.old (Some end) so_far.new) }
{
    match values(alloc, arguments, so_far)? {
        Err(fault) => Ok(End::Faulted(fault)),
        Ok(list) => {
            so_far.make_child(child, list)?;
            Ok(End::Calling(into))
        }
    }
}

/// `return` with a value.
fn act_return(expr: &Expr, so_far: &mut StepState) -> End
    requires typed { HasType so_far.old expr.now }
    ensures { ActsAs (Return (Some expr.now)) so_far.old (Some result) so_far.new }
{
    match so_far.value(expr) {
        Err(fault) => End::Faulted(fault),
        Ok(value) => End::Done(Some(value)),
    }
}

/// A statement without blocks: how the step ends, or `None` where it goes on.
#[tactic(auto, using(crate::proofs::Simple::no_choice, crate::proofs::Simple::no_loop))]
pub(crate) fn act(
    alloc: Global,
    stmt: &Stmt,
    so_far: &mut StepState,
) -> Result<Option<End>, OutOfMemory>
    requires simple { is_simple stmt.now ≡ true }
    requires doable { IsDoable so_far.old (out-Stmt stmt.now) }
    requires few { length so_far.old.items < most_items }
    ensures { IfOk result (λ end. ActsAs (out-Stmt stmt.now) so_far.old end so_far.new) }
{
    match stmt {
        Stmt::Let { slot, value } => Ok(act_set(*slot, value, so_far)),
        Stmt::Assign { slot, value } => Ok(act_set(*slot, value, so_far)),
        Stmt::Emit { cell, what } => act_emit(alloc, *cell, what, so_far),
        Stmt::Delay(value) => Ok(Some(act_delay(value, so_far))),
        Stmt::WaitUntil(condition) => Ok(Some(act_wait(alloc, condition, so_far)?)),
        Stmt::Spawn { kind, arguments } => act_spawn(alloc, *kind, arguments.as_slice(), so_far),
        Stmt::Call {
            kind,
            arguments,
            into,
        } => Ok(Some(act_call(alloc, *kind, arguments.as_slice(), *into, so_far)?)),
        Stmt::Return(None) => Ok(Some(End::Done(None))),
        Stmt::Return(Some(value)) => Ok(Some(act_return(value, so_far))),
        Stmt::If { .. } => unreachable!(),
        Stmt::While { .. } => unreachable!(),
    }
}
