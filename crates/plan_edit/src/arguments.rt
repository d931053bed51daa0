//! The values of a directive's arguments, of those that are given.

ghost use Rattle.std.specs.Prelude.{◌≡◌, ◌≤◌, ◌<◌, ◌++◌, ◌∷◌, [], Some, IfSome, MatchOption, Decides, ◌≢◌, ℕ, List as Bytes, length, option_copied, option_map, slice_get};
ghost use Rattle.aerie_base.specs.Ranges.{checked_number};
ghost use Rattle.aerie_base.specs.declared.values.Value.TheVariants.{Int, Variant};
ghost use Rattle.aerie_base.specs.models.Limits.{variant_limit};
ghost use Rattle.aerie_base.specs.models.Names.{same_name};
ghost use Rattle.plan_edit.specs.Answers.{IsMade};
ghost use Rattle.plan_edit.specs.Arguments.{arguments_of as arguments_by, values_filled as filled_by, first_bad as first_bad_by, is_bad as is_bad_by, parameter_position as position_by, parameter_value as parameter_value_by, value_for as value_for_by, value_given as value_by, is_given as is_given_by, variant_written};

use crate::errors::EditError;
use crate::items::item_at;
use aerie_base::{
    EnumType, Kind, List, Model, Name, Number, Parameter, RawArgument, RawValue, Value,
};
use std::alloc::Global;

/// A type with a value for each of its parameters.
#[derive(Debug, Drop)]
pub struct Given {
    /// The activity type, counted from 0 in the order of the model.
    pub kind: u16,
    /// The values, in the order of the parameters.
    pub arguments: List<Value>,
}

/// What stands behind a front of a text.
fn behind<'a>(text: &'a [u8], front: &[u8]) -> Option<&'a [u8]>
    ensures { MatchOption result ((rest : Bytes ℕ) → text.now ≢ front.now ++ rest) (λ rest. text.now ≡ front.now ++ rest.now) }
{
    text.strip_prefix(front)
}

/// Whether a word is an enumeration's name, a dot and a variant's name.
fn writes(word: &str, enumeration: &Name, variant: &Name) -> bool
    ensures { result ≡ same_name (enumeration.now ++ 46 ∷ variant.now) word.now }
{
    match behind(word.as_bytes(), enumeration.as_str().as_bytes()) {
        Some(rest) => is_dotted(rest, variant.as_str().as_bytes()),
        None => false,
    }
}

/// Whether a text is a dot and a name.
fn is_dotted(text: &[u8], name: &[u8]) -> bool
    ensures { Decides result (text.now ≡ 46 ∷ name.now) }
{
    match behind(text, b".") {
        Some(rest) => rest == name,
        None => false,
    }
}

/// The value that is given so for a parameter of a type, where it is of that type.
fn value_given(model: &Model, kind: Kind, given: &RawValue) -> Option<Value>
    ensures { result ≡ value_by model.now.enums kind given.now }
{
    match (kind, given) {
        (Kind::Int, RawValue::Int(number)) => number_given(*number),
        (Kind::Truth, RawValue::Truth(truth)) => Some(Value::Truth(*truth)),
        (Kind::Enum(kind), RawValue::Word(word)) => variant_given(model, kind, word.as_str()),
        _ => None,
    }
}

/// The value that a number is.
fn number_given(number: Number) -> Option<Value>
    ensures { result ≡ option_map Int (checked_number number) }
{
    match Number::new(number.get()) {
        Some(number) => Some(Value::Int(number)),
        None => None,
    }
}

/// The variant of an enumeration that a word writes.
fn variant_given(model: &Model, kind: u16, word: &str) -> Option<Value>
    ensures { result ≡ option_map (Variant kind) (variant_written (slice_get model.now.enums kind) word.now) }
{
    match item_at(model.enums(), usize::from(kind)) {
        Some(enumeration) => variant_of(kind, enumeration, word),
        None => None,
    }
}

/// The variant that a word writes.
fn variant_of(kind: u16, enumeration: &EnumType, word: &str) -> Option<Value>
    requires { length enumeration.now.variants ≤ variant_limit }
    ensures { result ≡ option_map (Variant kind) (variant_written (Some enumeration.now) word.now) }
{
    match variant_position(enumeration, word) {
        Some(position) => Some(Value::Variant {
            kind,
            number: position as u16,
        }),
        None => None,
    }
}

/// The position of the variant that a word writes.
fn variant_position(enumeration: &EnumType, word: &str) -> Option<usize>
    ensures position { result ≡ variant_written (Some enumeration.now) word.now }
    ensures within { IfSome result (λ position. position < length enumeration.now.variants) }
{
    enumeration
        .variants
        .as_slice()
        .iter()
        .position(|variant| writes(word, &enumeration.name, variant))
}

/// The position of the parameter with a name.
pub fn parameter_position(parameters: &[Parameter], name: &Name) -> Option<usize>
    ensures position { result ≡ position_by parameters.now name.now }
    ensures within { IfSome result (λ position. position < length parameters.now) }
{
    parameters
        .iter()
        .position(|parameter| parameter.name == *name)
}

/// The value that is given for the parameter with a name, where there is one and the value is of its type.
pub fn value_for(
    model: &Model,
    parameters: &[Parameter],
    name: &Name,
    given: &RawValue,
) -> Option<Value>
    ensures { result ≡ value_for_by model.now.enums parameters.now name.now given.now }
{
    let position = parameter_position(parameters, name)?;
    value_given(model, parameters[position].kind, given)
}

/// Whether an argument is given before, names no parameter or is not of the parameter's type.
fn is_bad(
    model: &Model,
    parameters: &[Parameter],
    before: &[RawArgument],
    argument: &RawArgument,
) -> bool
    ensures { result ≡ is_bad_by model.now.enums parameters.now before.now argument.now }
{
    is_given(before, &argument.name)
        || value_for(model, parameters, &argument.name, &argument.value).is_none()
}

/// Whether one of some arguments has the name.
fn is_given(arguments: &[RawArgument], name: &Name) -> bool
    ensures { result ≡ is_given_by arguments.now name.now }
{
    arguments.iter().any(|argument| *name == argument.name)
}

/// The name of the first bad one of the arguments. The parameters are few, and so are the arguments in front of it.
fn first_bad<'a>(
    model: &Model,
    parameters: &[Parameter],
    arguments: &'a [RawArgument],
) -> Option<&'a Name>
    ensures { option_copied result ≡ first_bad_by model.now.enums parameters.now [] arguments.now }
{
    for at in 0..arguments.len() {
        if is_bad(model, parameters, &arguments[..at], &arguments[at]) {
            return Some(&arguments[at].name);
        }
    }
    None
}

/// The value of a parameter, where it is given or has a default.
fn parameter_value(model: &Model, arguments: &[RawArgument], parameter: &Parameter) -> Option<Value>
    ensures { result ≡ parameter_value_by model.now.enums arguments.now parameter.now }
{
    for argument in arguments {
        if argument.name == parameter.name {
            return value_given(model, parameter.kind, &argument.value);
        }
    }
    parameter.default
}

/// A value for each parameter, or the first that has none.
fn filled(
    alloc: Global,
    model: &Model,
    arguments: &[RawArgument],
    parameters: &[Parameter],
) -> Result<List<Value>, EditError>
    ensures { IsMade (filled_by model.now.enums arguments.now parameters.now) result }
{
    let mut values = List::with_capacity(alloc, parameters.len())?;
    for parameter in parameters {
        match parameter_value(model, arguments, parameter) {
            Some(value) => values.push(value)?,
            None => {
                return Err(EditError::BadArgument {
                    parameter: parameter.name.copy(alloc)?,
                });
            }
        }
    }
    Ok(values)
}

/// A value for each parameter, of the arguments that are given.
pub fn arguments_of(
    alloc: Global,
    model: &Model,
    parameters: &[Parameter],
    arguments: &[RawArgument],
) -> Result<List<Value>, EditError>
    ensures { IsMade (arguments_by model.now.enums parameters.now arguments.now) result }
{
    if let Some(name) = first_bad(model, parameters, arguments) {
        return Err(EditError::BadArgument {
            parameter: name.copy(alloc)?,
        });
    }
    filled(alloc, model, arguments, parameters)
}
