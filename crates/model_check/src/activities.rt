//! Activity types are judged and made.

ghost use Rattle.std.specs.Prelude.{◌≡◌, IfOk};
ghost use Rattle.model_check.specs.Diagnostics.{noted};
ghost use Rattle.model_check.specs.ModelDiagnostics.{default_diagnostics, parameter_diagnostics, result_type_diagnostics};
ghost use Rattle.model_check.specs.ModelMeaning.{result_written};
ghost use Rattle.model_check.specs.ModelSymbols.{type_kind, bare_symbols};
ghost use Rattle.model_check.specs.Making.{MakesParameter, MakesParameters, MakesActivity};

use crate::bodies::{body, note_end, requirements};
use crate::causes::Cause;
use crate::declarations::{default_value, note_type, result_symbol, type_kind};
use crate::items::{kind_written, note_typed_literal};
use crate::scopes::{BodyScope, note_local};
use crate::symbols::Symbols;
use aerie_base::{Activity, Kind, List, OutOfMemory, Parameter};
use diagnostics::Diagnostic;
use model_reader::{RawExpr, RawLiteral, RawName, RawParameter, RawStmt, RawType};
use std::alloc::Global;

// ---- parameters

/// Notes a default of another type.
fn note_default(
    symbols: &Symbols,
    written: &RawType,
    default: &Option<RawLiteral>,
    found: &mut Option<Diagnostic<Cause>>,
)
    ensures { found.new ≡ noted found.old (default_diagnostics symbols.now written.now default.now) }
{
    match default {
        None => {}
        Some(literal) => note_typed_literal(symbols, written, literal, found),
    }
}

/// Notes what is wrong with a parameter.
#[tactic(auto, using(diagnostics::specs::NotedInTurn::noted_appended))]
fn note_parameter(
    symbols: &Symbols,
    scope: &BodyScope,
    parameter: &RawParameter,
    found: &mut Option<Diagnostic<Cause>>,
)
    ensures { found.new ≡ noted found.old (parameter_diagnostics symbols.now scope.now parameter.now) }
{
    note_local(symbols, scope, &parameter.name, found);
    note_type(&symbols.enums, &parameter.kind, found);
    note_default(symbols, &parameter.kind, &parameter.default, found);
}

/// Makes a parameter, notes what is wrong with it, and goes on to the scope behind it.
fn parameter(
    alloc: Global,
    symbols: &Symbols,
    written: &RawParameter,
    scope: &mut BodyScope,
    found: &mut Option<Diagnostic<Cause>>,
) -> Result<Parameter, OutOfMemory>
    ensures { IfOk result (MakesParameter symbols.now written.now scope.old scope.new found.old found.new) }
{
    note_parameter(symbols, scope, written, found);
    let name = written.name.name.copy(alloc)?;
    let kind = type_kind(&symbols.enums, &written.kind);
    scope.declare(alloc, &written.name.name, kind, true)?;
    Ok(Parameter {
        name,
        kind: kind_written(symbols, &written.kind),
        default: default_value(&symbols.enums, &written.default),
    })
}

/// Makes parameters, and goes on to the scope behind them.
fn parameters(
    alloc: Global,
    symbols: &Symbols,
    written: &[RawParameter],
    scope: &mut BodyScope,
    found: &mut Option<Diagnostic<Cause>>,
) -> Result<List<Parameter>, OutOfMemory>
    ensures { IfOk result (MakesParameters symbols.now written.now scope.old scope.new found.old found.new) }
{
    let mut made = List::with_capacity(alloc, written.len())?;
    for raw in written {
        made.push(parameter(alloc, symbols, raw, scope, found)?)?;
    }
    Ok(made)
}

// ---- results

/// Notes the type of a result that names no enumeration.
fn note_result_type(
    symbols: &Symbols,
    written: &Option<RawType>,
    found: &mut Option<Diagnostic<Cause>>,
)
    ensures { found.new ≡ noted found.old (result_type_diagnostics symbols.now written.now) }
{
    match written {
        None => {}
        Some(written) => note_type(&symbols.enums, written, found),
    }
}

/// The type of a result, where there is one.
fn result_written(symbols: &Symbols, written: &Option<RawType>) -> Option<Kind>
    ensures { result ≡ result_written symbols.now written.now }
{
    match written {
        None => None,
        Some(written) => Some(kind_written(symbols, written)),
    }
}

// ---- activity types

/// Makes an activity type, and notes what is wrong with it. The bare symbols have its model's enumerations alone.
pub(crate) fn activity(
    alloc: Global,
    symbols: &Symbols,
    bare: &Symbols,
    name: &RawName,
    written: &[RawParameter],
    returns: &Option<RawType>,
    truths: &[RawExpr],
    raw: &List<RawStmt>,
    found: &mut Option<Diagnostic<Cause>>,
) -> Result<Activity, OutOfMemory>
    requires { bare.now ≡ bare_symbols symbols.now.enums }
    ensures { IfOk result (MakesActivity symbols.now name.now written.now returns.now truths.now raw.now found.old found.new) }
{
    let mut scope = BodyScope::new(alloc);
    let parameters = parameters(alloc, symbols, written, &mut scope, found)?;
    note_result_type(symbols, returns, found);
    let requires_ = requirements(alloc, bare, &scope, truths, found)?;
    let result = result_symbol(&symbols.enums, returns);
    let made = body(alloc, symbols, result, raw, scope, found)?;
    note_end(name.at, returns, raw.as_slice(), found);
    Ok(Activity {
        name: name.name.copy(alloc)?,
        parameters,
        result: result_written(symbols, returns),
        requires_,
        slots: made.slots,
        body: made.statements,
    })
}
