//! Bodies of activity types and daemons are judged and made.

ghost use Rattle.std.specs.Prelude.{◌≡◌, None, IfOk};
ghost use Rattle.model_check.specs.BodyScopes.{empty_scope};
ghost use Rattle.model_check.specs.Diagnostics.{noted};
ghost use Rattle.model_check.specs.ModelDiagnostics.{is_return_kind, returns_at_end, end_diagnostics};
ghost use Rattle.model_check.specs.ModelSymbols.{bare_symbols};
ghost use Rattle.model_check.specs.Making.{MakesBody, MakesRequires};

use crate::causes::Cause;
use crate::expressions::typed;
use crate::scopes::BodyScope;
use crate::statements::block;
use crate::symbols::{ResultSymbol, Symbols};
use aerie_base::{Expr, Kind, List, OutOfMemory, Place, Stmt};
use diagnostics::{Diagnostic, note};
use model_reader::{RawExpr, RawStmt, RawStmtKind, RawType};
use std::alloc::Global;

/// What is made of a body.
#[derive(Drop)]
pub(crate) struct CheckedBody {
    /// How many locals it has, those in front of it included.
    pub slots: u16,
    /// Its statements.
    pub statements: List<Stmt>,
}

/// Makes a body behind the locals of a scope, by the result of its activity type, and notes what is wrong with it. It goes over the
/// body once, and copies no scope.
pub(crate) fn body(
    alloc: Global,
    symbols: &Symbols,
    returns: Option<ResultSymbol>,
    raw: &List<RawStmt>,
    mut scope: BodyScope,
    found: &mut Option<Diagnostic<Cause>>,
) -> Result<CheckedBody, OutOfMemory>
    ensures { IfOk result (MakesBody symbols.now returns raw.now scope found.old found.new) }
{
    let statements = block(alloc, symbols, returns, raw, &mut scope, found)?;
    Ok(CheckedBody {
        slots: scope.count,
        statements,
    })
}

/// Makes the body of a daemon, which has no result and no locals in front of it.
pub(crate) fn daemon_body(
    alloc: Global,
    symbols: &Symbols,
    raw: &List<RawStmt>,
    found: &mut Option<Diagnostic<Cause>>,
) -> Result<CheckedBody, OutOfMemory>
    ensures { IfOk result (MakesBody symbols.now None raw.now empty_scope found.old found.new) }
{
    body(alloc, symbols, None, raw, BodyScope::new(alloc), found)
}

/// Makes truths over the parameters alone. The symbols have no cell and no activity type, so any other read is unknown.
pub(crate) fn requirements(
    alloc: Global,
    bare: &Symbols,
    scope: &BodyScope,
    written: &[RawExpr],
    found: &mut Option<Diagnostic<Cause>>,
) -> Result<List<Expr>, OutOfMemory>
    requires { bare.now ≡ bare_symbols bare.now.enums }
    ensures { IfOk result (MakesRequires bare.now scope.now written.now found.old found.new) }
{
    let mut made = List::new(alloc);
    for truth in written {
        made.push(typed(alloc, bare, scope, Kind::Truth, truth, found)?)?;
    }
    Ok(made)
}

/// Whether a statement is a `return`.
fn is_return(what: &RawStmtKind) -> bool
    ensures { result ≡ is_return_kind what.now }
{
    match what {
        RawStmtKind::Return(_) => true,
        _ => false,
    }
}

/// Whether the last statement is a `return`.
#[tactic(auto, using(crate::proofs::LastReturns::returns_by_last))]
fn returns_at_end(body: &[RawStmt]) -> bool
    ensures { result ≡ returns_at_end body.now }
{
    match body.last() {
        None => false,
        Some(last) => is_return(&last.what),
    }
}

/// Notes an activity type with a result whose last statement is no `return`, at its name.
pub(crate) fn note_end(
    at: Place,
    returns: &Option<RawType>,
    body: &[RawStmt],
    found: &mut Option<Diagnostic<Cause>>,
)
    ensures { found.new ≡ noted found.old (end_diagnostics at returns.now body.now) }
{
    if returns.is_some() && !returns_at_end(body) {
        note(found, at, Cause::WrongType);
    }
}
