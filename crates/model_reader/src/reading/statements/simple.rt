//! Statements without blocks.

ghost use Rattle.std.specs.Prelude.{◌≡◌, ◌<◌, IfOk};
ghost use Rattle.readers.specs.Implements.{Consumes, MayConsume};
ghost use Rattle.model_reader.specs.reading.Statements.{let_value_at, let_at, delay_at, wait_at, started, start_at, optional_expr_at, return_at, simple_at, simple_iteration_at, with_stmt};

use crate::raw::{RawExpr, RawInvoke, RawName, RawStmt, RawStmtKind};
use crate::reading::body::Body;
use crate::reading::child_start::ChildStart;
use crate::reading::expressions::{begins_expr, expr};
use crate::reading::invokes::invoke;
use crate::reading::names::raw_name;
use crate::reading::statements::changes::change;
use aerie_base::OutOfMemory;
use aerie_text::Sort;
use readers::{Reader, Refusal, ended_by, one_of};
use std::alloc::Global;

/// Reads what gives the local of this name its first value: a child, by its result, or an expression.
#[tactic(auto, unfolding(crate::specs::reading::Statements::let_value_at, crate::specs::reading::Statements::let_call_at, crate::specs::reading::Statements::let_expr_at))]
fn let_value(alloc: Global, reader: &mut Reader, name: RawName) -> Result<RawStmtKind, Refusal>
    ensures { Consumes (let_value_at name) reader.old reader.new result }
{
    if reader.next_is(Sort::Call) {
        reader.take(Sort::Call)?;
        let call = invoke(alloc, reader)?;
        Ok(RawStmtKind::LetCall { name, call })
    } else {
        let value = expr(alloc, reader)?;
        Ok(RawStmtKind::Let { name, value })
    }
}

/// Reads `let`, the name of a local and what gives it its first value.
#[tactic(auto, unfolding(crate::specs::reading::Statements::let_at))]
fn let_(alloc: Global, reader: &mut Reader) -> Result<RawStmt, Refusal>
    ensures { Consumes let_at reader.old reader.new result }
{
    let at = reader.take(Sort::Let)?;
    let name = raw_name(alloc, reader)?;
    reader.take(Sort::Assign)?;
    let what = let_value(alloc, reader, name)?;
    ended_by(reader, Sort::Semicolon, RawStmt { at, what })
}

/// Reads `delay` and by how much.
#[tactic(auto, unfolding(crate::specs::reading::Statements::delay_at))]
fn delay(alloc: Global, reader: &mut Reader) -> Result<RawStmt, Refusal>
    ensures { Consumes delay_at reader.old reader.new result }
{
    let at = reader.take(Sort::Delay)?;
    let by = expr(alloc, reader)?;
    let what = RawStmtKind::Delay(by);
    ended_by(reader, Sort::Semicolon, RawStmt { at, what })
}

/// Reads `wait until` and the condition.
#[tactic(auto, unfolding(crate::specs::reading::Statements::wait_at))]
fn wait(alloc: Global, reader: &mut Reader) -> Result<RawStmt, Refusal>
    ensures { Consumes wait_at reader.old reader.new result }
{
    let at = reader.take(Sort::Wait)?;
    reader.take(Sort::Until)?;
    let condition = expr(alloc, reader)?;
    let what = RawStmtKind::WaitUntil(condition);
    ended_by(reader, Sort::Semicolon, RawStmt { at, what })
}

/// What the start of the child is as a statement.
fn started(start: ChildStart, child: RawInvoke) -> RawStmtKind
    ensures { result ≡ started start child }
{
    match start {
        ChildStart::Spawn => RawStmtKind::Spawn(child),
        ChildStart::Call => RawStmtKind::Call(child),
    }
}

/// Reads the start of a child.
#[tactic(auto, unfolding(crate::specs::reading::Statements::start_at, crate::specs::reading::Statements::start_word_at))]
fn start(alloc: Global, reader: &mut Reader) -> Result<RawStmt, Refusal>
    ensures { Consumes start_at reader.old reader.new result }
{
    let words = [
        (Sort::Spawn, ChildStart::Spawn),
        (Sort::Call, ChildStart::Call),
    ];
    let (at, start) = one_of(reader, &words)?;
    let child = invoke(alloc, reader)?;
    let what = started(start, child);
    ended_by(reader, Sort::Semicolon, RawStmt { at, what })
}

/// Reads an expression, or nothing.
#[tactic(auto, unfolding(crate::specs::reading::Statements::optional_expr_at, crate::specs::reading::Statements::some_expr_at))]
fn optional_expr(alloc: Global, reader: &mut Reader) -> Result<Option<RawExpr>, Refusal>
    ensures { MayConsume optional_expr_at reader.old reader.new result }
{
    if begins_expr(reader) {
        let value = expr(alloc, reader)?;
        Ok(Some(value))
    } else {
        Ok(None)
    }
}

/// Reads `return` and its value, where there is one.
#[tactic(auto, unfolding(crate::specs::reading::Statements::return_at))]
fn return_(alloc: Global, reader: &mut Reader) -> Result<RawStmt, Refusal>
    ensures { Consumes return_at reader.old reader.new result }
{
    let at = reader.take(Sort::Return)?;
    let value = optional_expr(alloc, reader)?;
    let what = RawStmtKind::Return(value);
    ended_by(reader, Sort::Semicolon, RawStmt { at, what })
}

/// The statements so far and one more behind them; how many the body may still have.
pub fn with_stmt(body: Body, spare: usize, last: RawStmt) -> Result<Body, OutOfMemory>
    ensures { IfOk result (λ more. more ≡ with_stmt body spare last) }
{
    let mut stmts = body.stmts;
    stmts.push(last)?;
    Ok(Body { stmts, spare })
}

/// Reads a statement without blocks.
#[tactic(auto, unfolding(crate::specs::reading::Statements::simple_at))]
fn simple(alloc: Global, reader: &mut Reader) -> Result<RawStmt, Refusal>
    ensures { Consumes simple_at reader.old reader.new result }
{
    if reader.next_is(Sort::Let) {
        let_(alloc, reader)
    } else if reader.next_is(Sort::Name) {
        change(alloc, reader)
    } else if reader.next_is(Sort::Delay) {
        delay(alloc, reader)
    } else if reader.next_is(Sort::Wait) {
        wait(alloc, reader)
    } else if reader.next_is_one_of(&[Sort::Spawn, Sort::Call]) {
        start(alloc, reader)
    } else {
        return_(alloc, reader)
    }
}

/// The same, and puts it behind the statements so far.
#[tactic(auto, unfolding(crate::specs::reading::Statements::simple_iteration_at))]
pub fn simple_iteration(alloc: Global, reader: &mut Reader, body: Body) -> Result<Body, Refusal>
    requires spare { 0 < body.spare }
    ensures { Consumes (simple_iteration_at body) reader.old reader.new result }
{
    let last = simple(alloc, reader)?;
    let spare = body.spare - 1;
    Ok(with_stmt(body, spare, last)?)
}
