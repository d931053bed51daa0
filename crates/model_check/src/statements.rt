//! Statements are judged and made.

ghost use Rattle.std.specs.Prelude.{◌≡◌, None, IfOk};
ghost use Rattle.model_reader.specs.declared.raw.statements.RawStmtKind.{Let as RawLet, LetCall as RawLetCall, Assign as RawAssign, Add as RawAdd, Put as RawPut, AddVolume as RawAddVolume, AddRate as RawAddRate, Delay as RawDelay, WaitUntil as RawWaitUntil, Spawn as RawSpawn, Call as RawCall, Return as RawReturn};
ghost use Rattle.model_check.specs.CellReads.{of_cell, on_cell, flow_sort};
ghost use Rattle.model_check.specs.Diagnostics.{noted, Makes};
ghost use Rattle.model_check.specs.MadeStatements.{IsStatementAt, IsStatement, IsBlock};
ghost use Rattle.model_check.specs.Statements.{assigned_diagnostics, local_kind, local_slot, counter_sort, register_sort, register_sort_kind, return_diagnostics, returned_of};
ghost use Rattle.model_check.specs.Making.{MakesFlow};

use crate::causes::Cause;
use crate::cell_reads::cell_number;
use crate::expressions::{expression, raw_kind, typed, valued};
use crate::invokes::{arguments, call_kind, invoked_number, note_result};
use crate::scopes::{BodyScope, LocalSymbol, note_let, note_local};
use crate::symbols::{CellSort, CellSymbol, ResultSymbol, Symbols};
use crate::waits::wait;
use aerie_base::{Emission, Expr, Kind, List, OutOfMemory, Place, Stmt};
use diagnostics::{Diagnostic, note};
use model_reader::{RawExpr, RawInvoke, RawName, RawStmt, RawStmtKind};
use std::alloc::Global;

// ---- what is assigned to

/// Notes a name that is of no local, or of a parameter.
fn note_assigned(
    found: &mut Option<Diagnostic<Cause>>,
    at: Place,
    local: Option<(usize, LocalSymbol)>,
)
    ensures { found.new ≡ noted found.old (assigned_diagnostics at local) }
{
    match local {
        None => note(found, at, Cause::Unknown),
        Some((_, local)) => {
            if local.is_parameter {
                note(found, at, Cause::WrongType);
            }
        }
    }
}

/// The type of a local, where it is known.
fn local_kind(local: Option<(usize, LocalSymbol)>) -> Option<Kind>
    ensures { result ≡ local_kind local }
{
    match local {
        None => None,
        Some((_, local)) => local.kind,
    }
}

/// The slot of a local.
fn local_slot(local: Option<(usize, LocalSymbol)>) -> u16
    ensures { result ≡ local_slot local }
{
    match local {
        None => 0,
        Some((_, local)) => local.slot,
    }
}

/// Notes a name that is of no counter.
fn note_counter(found: &mut Option<Diagnostic<Cause>>, at: Place, cell: Option<(usize, CellSymbol)>)
    ensures { found.new ≡ noted found.old (on_cell counter_sort at cell) }
{
    match cell {
        None => note(found, at, Cause::Unknown),
        Some((_, cell)) => match cell.sort {
            CellSort::Counter => {}
            _ => note(found, at, Cause::WrongType),
        },
    }
}

/// Notes a name that is of no register.
fn note_register(
    found: &mut Option<Diagnostic<Cause>>,
    at: Place,
    cell: Option<(usize, CellSymbol)>,
)
    ensures { found.new ≡ noted found.old (on_cell register_sort at cell) }
{
    match cell {
        None => note(found, at, Cause::Unknown),
        Some((_, cell)) => match cell.sort {
            CellSort::Register(_) => {}
            _ => note(found, at, Cause::WrongType),
        },
    }
}

/// Notes a name that is of no accumulator.
fn note_accumulator(
    found: &mut Option<Diagnostic<Cause>>,
    at: Place,
    cell: Option<(usize, CellSymbol)>,
)
    ensures { found.new ≡ noted found.old (on_cell flow_sort at cell) }
{
    match cell {
        None => note(found, at, Cause::Unknown),
        Some((_, cell)) => match cell.sort {
            CellSort::Accumulator => {}
            _ => note(found, at, Cause::WrongType),
        },
    }
}

/// The type of a register, where it is known.
fn register_kind(cell: Option<(usize, CellSymbol)>) -> Option<Kind>
    ensures { result ≡ of_cell register_sort_kind cell }
{
    match cell?.1.sort {
        CellSort::Register(kind) => kind,
        _ => None,
    }
}

// ---- locals

/// A `let` with a value.
#[tactic(auto, using(diagnostics::specs::NotedInTurn::noted_appended))]
fn let_value(
    alloc: Global,
    symbols: &Symbols,
    at: Place,
    name: &RawName,
    value: &RawExpr,
    scope: &mut BodyScope,
    found: &mut Option<Diagnostic<Cause>>,
) -> Result<Stmt, OutOfMemory>
    ensures { IfOk result (IsStatementAt symbols.now None at (RawLet name.now value.now) scope.old scope.new found.old found.new) }
{
    note_let(at, scope, found);
    note_local(symbols, scope, name, found);
    let made = expression(alloc, symbols, scope, value, found)?;
    let slot = scope.count;
    let kind = raw_kind(symbols, scope, &value.what);
    scope.declare(alloc, &name.name, kind, false)?;
    Ok(Stmt::Let { slot, value: made })
}

/// A `let` that takes a result.
#[tactic(auto, using(diagnostics::specs::NotedInTurn::noted_appended))]
fn let_call(
    alloc: Global,
    symbols: &Symbols,
    at: Place,
    name: &RawName,
    call: &RawInvoke,
    scope: &mut BodyScope,
    found: &mut Option<Diagnostic<Cause>>,
) -> Result<Stmt, OutOfMemory>
    ensures { IfOk result (IsStatementAt symbols.now None at (RawLetCall name.now call.now) scope.old scope.new found.old found.new) }
{
    note_let(at, scope, found);
    note_local(symbols, scope, name, found);
    let arguments = arguments(alloc, symbols, scope, call, found)?;
    note_result(symbols, call, found);
    let slot = scope.count;
    scope.declare(alloc, &name.name, call_kind(symbols, call), false)?;
    Ok(Stmt::Call {
        kind: invoked_number(symbols, call),
        arguments,
        into: Some(slot),
    })
}

/// Another value of a local.
#[tactic(auto, using(diagnostics::specs::NotedInTurn::noted_appended))]
fn assign(
    alloc: Global,
    symbols: &Symbols,
    at: Place,
    scope: &BodyScope,
    name: &RawName,
    value: &RawExpr,
    found: &mut Option<Diagnostic<Cause>>,
) -> Result<Stmt, OutOfMemory>
    ensures { IfOk result (IsStatementAt symbols.now None at (RawAssign name.now value.now) scope.now scope.now found.old found.new) }
{
    let local = scope.known.entry(&name.name);
    note_assigned(found, name.at, local);
    let value = valued(alloc, symbols, scope, local_kind(local), value, found)?;
    Ok(Stmt::Assign {
        slot: local_slot(local),
        value,
    })
}

// ---- effects

/// An effect on a counter.
#[tactic(auto, using(diagnostics::specs::NotedInTurn::noted_appended))]
fn add(
    alloc: Global,
    symbols: &Symbols,
    at: Place,
    scope: &BodyScope,
    name: &RawName,
    value: &RawExpr,
    found: &mut Option<Diagnostic<Cause>>,
) -> Result<Stmt, OutOfMemory>
    ensures { IfOk result (IsStatementAt symbols.now None at (RawAdd name.now value.now) scope.now scope.now found.old found.new) }
{
    let cell = symbols.cells.entry(&name.name);
    note_counter(found, name.at, cell);
    let value = typed(alloc, symbols, scope, Kind::Int, value, found)?;
    Ok(Stmt::Emit {
        cell: cell_number(cell),
        what: Emission::Add(value),
    })
}

/// An effect on a register.
#[tactic(auto, using(diagnostics::specs::NotedInTurn::noted_appended))]
fn put(
    alloc: Global,
    symbols: &Symbols,
    at: Place,
    scope: &BodyScope,
    name: &RawName,
    value: &RawExpr,
    found: &mut Option<Diagnostic<Cause>>,
) -> Result<Stmt, OutOfMemory>
    ensures { IfOk result (IsStatementAt symbols.now None at (RawPut name.now value.now) scope.now scope.now found.old found.new) }
{
    let cell = symbols.cells.entry(&name.name);
    note_register(found, name.at, cell);
    let value = valued(alloc, symbols, scope, register_kind(cell), value, found)?;
    Ok(Stmt::Emit {
        cell: cell_number(cell),
        what: Emission::Set(value),
    })
}

/// The cell and the value of an effect on a part of an accumulator.
#[tactic(auto, using(diagnostics::specs::NotedInTurn::noted_appended))]
fn flow(
    alloc: Global,
    symbols: &Symbols,
    scope: &BodyScope,
    name: &RawName,
    value: &RawExpr,
    found: &mut Option<Diagnostic<Cause>>,
) -> Result<(u16, Expr), OutOfMemory>
    ensures { IfOk result (MakesFlow symbols.now scope.now name.now value.now found.old found.new) }
{
    let cell = symbols.cells.entry(&name.name);
    note_accumulator(found, name.at, cell);
    let value = typed(alloc, symbols, scope, Kind::Int, value, found)?;
    Ok((cell_number(cell), value))
}

/// An effect on the volume of an accumulator.
fn add_volume(
    alloc: Global,
    symbols: &Symbols,
    at: Place,
    scope: &BodyScope,
    name: &RawName,
    value: &RawExpr,
    found: &mut Option<Diagnostic<Cause>>,
) -> Result<Stmt, OutOfMemory>
    ensures { IfOk result (IsStatementAt symbols.now None at (RawAddVolume name.now value.now) scope.now scope.now found.old found.new) }
{
    let (cell, value) = flow(alloc, symbols, scope, name, value, found)?;
    let what = Emission::Volume(value);
    Ok(Stmt::Emit { cell, what })
}

/// An effect on the rate of an accumulator.
fn add_rate(
    alloc: Global,
    symbols: &Symbols,
    at: Place,
    scope: &BodyScope,
    name: &RawName,
    value: &RawExpr,
    found: &mut Option<Diagnostic<Cause>>,
) -> Result<Stmt, OutOfMemory>
    ensures { IfOk result (IsStatementAt symbols.now None at (RawAddRate name.now value.now) scope.now scope.now found.old found.new) }
{
    let (cell, value) = flow(alloc, symbols, scope, name, value, found)?;
    let what = Emission::Rate(value);
    Ok(Stmt::Emit { cell, what })
}

// ---- waiting and children

/// A `delay`.
fn delay(
    alloc: Global,
    symbols: &Symbols,
    at: Place,
    scope: &BodyScope,
    by: &RawExpr,
    found: &mut Option<Diagnostic<Cause>>,
) -> Result<Stmt, OutOfMemory>
    ensures { IfOk result (IsStatementAt symbols.now None at (RawDelay by.now) scope.now scope.now found.old found.new) }
{
    let by = typed(alloc, symbols, scope, Kind::Int, by, found)?;
    Ok(Stmt::Delay(by))
}

/// A `wait until`.
fn wait_until(
    alloc: Global,
    symbols: &Symbols,
    at: Place,
    scope: &BodyScope,
    condition: &RawExpr,
    found: &mut Option<Diagnostic<Cause>>,
) -> Result<Stmt, OutOfMemory>
    ensures { IfOk result (IsStatementAt symbols.now None at (RawWaitUntil condition.now) scope.now scope.now found.old found.new) }
{
    let condition = wait(alloc, symbols, scope, condition, found)?;
    Ok(Stmt::WaitUntil(condition))
}

/// A `spawn`.
fn spawn(
    alloc: Global,
    symbols: &Symbols,
    at: Place,
    scope: &BodyScope,
    child: &RawInvoke,
    found: &mut Option<Diagnostic<Cause>>,
) -> Result<Stmt, OutOfMemory>
    ensures { IfOk result (IsStatementAt symbols.now None at (RawSpawn child.now) scope.now scope.now found.old found.new) }
{
    let arguments = arguments(alloc, symbols, scope, child, found)?;
    let kind = invoked_number(symbols, child);
    Ok(Stmt::Spawn { kind, arguments })
}

/// A `call` whose result nothing takes.
fn call(
    alloc: Global,
    symbols: &Symbols,
    at: Place,
    scope: &BodyScope,
    child: &RawInvoke,
    found: &mut Option<Diagnostic<Cause>>,
) -> Result<Stmt, OutOfMemory>
    ensures { IfOk result (IsStatementAt symbols.now None at (RawCall child.now) scope.now scope.now found.old found.new) }
{
    let arguments = arguments(alloc, symbols, scope, child, found)?;
    let kind = invoked_number(symbols, child);
    Ok(Stmt::Call {
        kind,
        arguments,
        into: None,
    })
}

// ---- results

/// A `return`, by the result of the activity type.
#[tactic(auto, using(diagnostics::specs::NotedInTurn::noted_appended))]
fn returned(
    alloc: Global,
    symbols: &Symbols,
    scope: &BodyScope,
    returns: Option<ResultSymbol>,
    at: Place,
    value: &Option<RawExpr>,
    found: &mut Option<Diagnostic<Cause>>,
) -> Result<Option<Expr>, OutOfMemory>
    ensures { IfOk result (Makes (returned_of symbols.now scope.now value.now) (return_diagnostics symbols.now scope.now returns at value.now) found.old found.new) }
{
    match value {
        None => {
            if returns.is_some() {
                note(found, at, Cause::WrongType);
            }
            Ok(None)
        }
        Some(value) => match returns {
            None => {
                note(found, at, Cause::WrongType);
                Ok(Some(expression(alloc, symbols, scope, value, found)?))
            }
            Some(returns) => Ok(Some(valued(alloc, symbols, scope, returns.kind, value, found)?)),
        },
    }
}

/// A `return`, by the result of the activity type.
fn return_value(
    alloc: Global,
    symbols: &Symbols,
    scope: &BodyScope,
    returns: Option<ResultSymbol>,
    at: Place,
    value: &Option<RawExpr>,
    found: &mut Option<Diagnostic<Cause>>,
) -> Result<Stmt, OutOfMemory>
    ensures { IfOk result (IsStatementAt symbols.now returns at (RawReturn value.now) scope.now scope.now found.old found.new) }
{
    let value = returned(alloc, symbols, scope, returns, at, value, found)?;
    Ok(Stmt::Return(value))
}

// ---- statements

/// Makes a statement, notes what is wrong with it, and goes on to the scope behind it.
#[cycle(statement)]
fn statement(
    alloc: Global,
    symbols: &Symbols,
    returns: Option<ResultSymbol>,
    raw: &RawStmt,
    scope: &mut BodyScope,
    found: &mut Option<Diagnostic<Cause>>,
) -> Result<Stmt, OutOfMemory>
    ensures { IfOk result (IsStatement symbols.now returns raw.now scope.old scope.new found.old found.new) }
{
    let at = raw.at;
    match &raw.what {
        RawStmtKind::Let { name, value } => {
            let_value(alloc, symbols, at, name, value, scope, found)
        }
        RawStmtKind::LetCall { name, call } => {
            let_call(alloc, symbols, at, name, call, scope, found)
        }
        RawStmtKind::Assign { name, value } => assign(
            alloc, symbols, at, scope, name, value, found,
        ),
        RawStmtKind::Add { name, value } => add(alloc, symbols, at, scope, name, value, found),
        RawStmtKind::Put { name, value } => put(alloc, symbols, at, scope, name, value, found),
        RawStmtKind::AddVolume { name, value } => {
            add_volume(alloc, symbols, at, scope, name, value, found)
        }
        RawStmtKind::AddRate { name, value } => {
            add_rate(alloc, symbols, at, scope, name, value, found)
        }
        RawStmtKind::Delay(by) => delay(alloc, symbols, at, scope, by, found),
        RawStmtKind::WaitUntil(condition) => {
            wait_until(alloc, symbols, at, scope, condition, found)
        }
        RawStmtKind::Spawn(child) => spawn(alloc, symbols, at, scope, child, found),
        RawStmtKind::Call(child) => call(alloc, symbols, at, scope, child, found),
        RawStmtKind::Return(value) => {
            return_value(alloc, symbols, scope, returns, at, value, found)
        }
        RawStmtKind::If { test, yes, no } => {
            let test = typed(alloc, symbols, scope, Kind::Truth, test, found)?;
            let yes = block(alloc, symbols, returns, yes, scope, found)?;
            let no = block(alloc, symbols, returns, no, scope, found)?;
            Ok(Stmt::If { test, yes, no })
        }
        RawStmtKind::While { test, body } => {
            let test = typed(alloc, symbols, scope, Kind::Truth, test, found)?;
            let body = block(alloc, symbols, returns, body, scope, found)?;
            Ok(Stmt::While { test, body })
        }
    }
}

/// Makes the statements of a block, behind which its locals are no longer known.
#[cycle(statement)]
pub(crate) fn block(
    alloc: Global,
    symbols: &Symbols,
    returns: Option<ResultSymbol>,
    raw: &List<RawStmt>,
    scope: &mut BodyScope,
    found: &mut Option<Diagnostic<Cause>>,
) -> Result<List<Stmt>, OutOfMemory>
    ensures { IfOk result (IsBlock symbols.now returns raw.now scope.old scope.new found.old found.new) }
{
    let known = scope.known_len();
    let mut made = List::new(alloc);
    for stmt in raw.as_slice() {
        made.push(statement(alloc, symbols, returns, stmt, scope, found)?)?;
    }
    scope.leave_block(known);
    Ok(made)
}
