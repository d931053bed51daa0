//! Starts of activities are judged and made.

ghost use Rattle.std.specs.Prelude.{◌≡◌, ◌||◌, Some, None, IfOk, is_some, length, replicate, slice_set};
ghost use Rattle.diagnostics.specs.Diagnostics.{refused_unless};
ghost use Rattle.model_check.specs.Diagnostics.{noted, Makes};
ghost use Rattle.model_check.specs.GivenArguments.{slot_given, put_given, put_found, name_found, missing_found, given_or_default, filled_values};
ghost use Rattle.model_check.specs.Invokes.{parameter_kind, values_diagnostics, result_diagnostics, call_kind, invoked_number};
ghost use Rattle.model_check.specs.declared.causes.Cause.TheVariants.{WrongType};
ghost use Rattle.model_check.specs.Making.{AddsArgument, AddsArguments, MakesArguments, MakesInvoke};

use crate::causes::Cause;
use crate::expressions::{expression, raw_kind};
use crate::literals::note_mismatch;
use crate::scopes::BodyScope;
use crate::symbols::{ParameterSymbol, Symbols};
use crate::tables::NameTable;
use aerie_base::{Expr, Kind, List, OutOfMemory, Place, Value};
use diagnostics::{Diagnostic, note, short};
use model_reader::{RawExpr, RawInvoke, RawName};
use std::alloc::Global;

// ---- one argument

/// The type of a parameter, where it is known.
fn parameter_kind(parameter: &Option<(usize, ParameterSymbol)>) -> Option<Kind>
    ensures { result ≡ parameter_kind parameter.now }
{
    match parameter {
        Some((_, parameter)) => parameter.kind,
        None => None,
    }
}

/// Whether there is a value at the place.
fn is_given(given: &[Option<Expr>], number: usize) -> bool
    ensures { result ≡ is_some (slot_given given.now number) }
{
    match given.get(number) {
        Some(value) => value.is_some(),
        None => false,
    }
}

/// Notes the name of an argument that is of no parameter, or of one that is given.
fn note_argument_name(
    given: &[Option<Expr>],
    name: &RawName,
    parameter: &Option<(usize, ParameterSymbol)>,
    found: &mut Option<Diagnostic<Cause>>,
)
    ensures { found.new ≡ noted found.old (name_found given.now name.now parameter.now) }
{
    match parameter {
        None => note(found, name.at, Cause::Unknown),
        Some((number, _)) => {
            if is_given(given, *number) {
                note(found, name.at, Cause::Duplicate);
            }
        }
    }
}

/// Puts a value into a place, where there is such a place.
fn set_place(given: &mut Vec<Option<Expr>>, number: usize, value: Expr)
    ensures { given.new.items ≡ slice_set given.old.items number (Some value) }
{
    if number < given.len() {
        given[number] = Some(value);
    }
}

/// Gives a value to a parameter, where it has none.
fn put_given(given: &mut Vec<Option<Expr>>, number: usize, value: Expr)
    ensures { given.new.items ≡ put_given given.old.items number value }
{
    if !is_given(given, number) {
        set_place(given, number, value);
    }
}

/// Gives a value to a parameter, where there is one that has none.
fn put_found(
    given: &mut Vec<Option<Expr>>,
    parameter: &Option<(usize, ParameterSymbol)>,
    value: Expr,
)
    ensures { given.new.items ≡ put_found given.old.items parameter.now value }
{
    if let Some((number, _)) = parameter {
        put_given(given, *number, value);
    }
}

/// Judges an argument and makes its value.
#[tactic(auto, using(diagnostics::specs::NotedInTurn::noted_appended))]
fn argument(
    alloc: Global,
    symbols: &Symbols,
    scope: &BodyScope,
    parameters: &NameTable<ParameterSymbol>,
    given: &mut Vec<Option<Expr>>,
    argument: &(RawName, RawExpr),
    found: &mut Option<Diagnostic<Cause>>,
) -> Result<(), OutOfMemory>
    ensures { IfOk result (λ _. AddsArgument symbols.now scope.now parameters.now argument.now given.old.items given.new.items found.old found.new) }
{
    let (name, value) = argument;
    let parameter = parameters.entry(&name.name);
    note_argument_name(given, name, &parameter, found);
    let made = expression(alloc, symbols, scope, value, found)?;
    note_mismatch(
        found,
        value.at,
        parameter_kind(&parameter),
        raw_kind(symbols, scope, &value.what),
    );
    put_found(given, &parameter, made);
    Ok(())
}

/// Judges arguments and makes their values.
fn each_argument(
    alloc: Global,
    symbols: &Symbols,
    scope: &BodyScope,
    parameters: &NameTable<ParameterSymbol>,
    given: &mut Vec<Option<Expr>>,
    arguments: &[(RawName, RawExpr)],
    found: &mut Option<Diagnostic<Cause>>,
) -> Result<(), OutOfMemory>
    ensures { IfOk result (λ _. AddsArguments symbols.now scope.now parameters.now arguments.now given.old.items given.new.items found.old found.new) }
{
    for raw in arguments {
        argument(alloc, symbols, scope, parameters, given, raw, found)?;
    }
    Ok(())
}

/// A place for each parameter, without a value.
fn no_arguments(alloc: Global, count: usize) -> Result<Vec<Option<Expr>>, OutOfMemory>
    ensures { IfOk result (λ given. given.items ≡ replicate count None) }
{
    let mut given = Vec::with_capacity(alloc, count)?;
    for _ in 0..count {
        given.push(None).map_err(|_| OutOfMemory)?;
    }
    Ok(given)
}

// ---- all of them

/// The value that is given, or else the default.
fn given_or_default(parameter: &ParameterSymbol, value: Option<Expr>) -> Expr
    ensures { result ≡ given_or_default parameter.now value }
{
    match value {
        Some(value) => value,
        None => match parameter.default {
            Some(value) => Expr::Literal(value),
            None => Expr::Literal(Value::Truth(false)),
        },
    }
}

/// Notes a parameter that is neither given nor has a default.
fn note_missing(
    at: Place,
    parameter: &ParameterSymbol,
    value: &Option<Expr>,
    found: &mut Option<Diagnostic<Cause>>,
)
    ensures { found.new ≡ noted found.old (refused_unless (is_some parameter.now.default || is_some value.now) WrongType at) }
{
    if parameter.default.is_none() && value.is_none() {
        note(found, at, Cause::WrongType);
    }
}

/// Fills defaults in, and notes parameters that are neither given nor have one.
fn fill(
    alloc: Global,
    at: Place,
    parameters: &[ParameterSymbol],
    mut given: Vec<Option<Expr>>,
    found: &mut Option<Diagnostic<Cause>>,
) -> Result<List<Expr>, OutOfMemory>
    requires { length given.items ≡ length parameters.now }
    ensures { IfOk result (Makes (filled_values parameters.now given.items) (missing_found at parameters.now given.items) found.old found.new) }
{
    let mut arguments = List::with_capacity(alloc, parameters.len())?;
    for number in 0..parameters.len() {
        let value = given[number].take();
        note_missing(at, &parameters[number], &value, found);
        arguments.push(given_or_default(&parameters[number], value))?;
    }
    Ok(arguments)
}

/// Judges the arguments of a known activity type, and makes them in the order of its parameters.
fn known_arguments(
    alloc: Global,
    symbols: &Symbols,
    scope: &BodyScope,
    parameters: &NameTable<ParameterSymbol>,
    invoke: &RawInvoke,
    found: &mut Option<Diagnostic<Cause>>,
) -> Result<List<Expr>, OutOfMemory>
    ensures { IfOk result (MakesArguments symbols.now scope.now parameters.now invoke.now found.old found.new) }
{
    let mut given = no_arguments(alloc, parameters.values.len())?;
    let arguments = invoke.arguments.as_slice();
    each_argument(
        alloc, symbols, scope, parameters, &mut given, arguments, found,
    )?;
    fill(
        alloc,
        invoke.name.at,
        parameters.values.as_slice(),
        given,
        found,
    )
}

/// Judges the values of the arguments of an unknown activity type.
fn note_values(
    alloc: Global,
    symbols: &Symbols,
    scope: &BodyScope,
    arguments: &[(RawName, RawExpr)],
    found: &mut Option<Diagnostic<Cause>>,
) -> Result<(), OutOfMemory>
    ensures { IfOk result (λ _. found.new ≡ noted found.old (values_diagnostics symbols.now scope.now arguments.now)) }
{
    for argument in arguments {
        let _made = expression(alloc, symbols, scope, &argument.1, found)?;
    }
    Ok(())
}

/// Judges the arguments of a start of an activity, and makes them in the order of the parameters.
pub(crate) fn arguments(
    alloc: Global,
    symbols: &Symbols,
    scope: &BodyScope,
    invoke: &RawInvoke,
    found: &mut Option<Diagnostic<Cause>>,
) -> Result<List<Expr>, OutOfMemory>
    ensures { IfOk result (MakesInvoke symbols.now scope.now invoke.now found.old found.new) }
{
    match symbols.types.find(&invoke.name.name) {
        None => {
            note(found, invoke.name.at, Cause::Unknown);
            note_values(alloc, symbols, scope, invoke.arguments.as_slice(), found)?;
            Ok(List::new(alloc))
        }
        Some((_, symbol)) => {
            known_arguments(alloc, symbols, scope, &symbol.parameters, invoke, found)
        }
    }
}

// ---- the activity type

/// The number of the activity type.
pub(crate) fn invoked_number(symbols: &Symbols, invoke: &RawInvoke) -> u16
    ensures { result ≡ invoked_number symbols.now invoke.now }
{
    match symbols.types.find(&invoke.name.name) {
        None => 0,
        Some((number, _)) => short(number),
    }
}

/// The type of the result, where it is known.
pub(crate) fn call_kind(symbols: &Symbols, invoke: &RawInvoke) -> Option<Kind>
    ensures { result ≡ call_kind symbols.now invoke.now }
{
    let (_, symbol) = symbols.types.find(&invoke.name.name)?;
    let result = symbol.result?;
    result.kind
}

/// Notes an activity type without the result that a `let` takes.
pub(crate) fn note_result(
    symbols: &Symbols,
    invoke: &RawInvoke,
    found: &mut Option<Diagnostic<Cause>>,
)
    ensures { found.new ≡ noted found.old (result_diagnostics symbols.now invoke.now) }
{
    if let Some((_, symbol)) = symbols.types.find(&invoke.name.name)
        && symbol.result.is_none()
    {
        note(found, invoke.name.at, Cause::WrongType);
    }
}
