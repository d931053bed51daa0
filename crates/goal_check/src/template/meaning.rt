//! The templates that are meant.

ghost use Rattle.std.specs.Prelude.{◌≡◌, IfOk, option_copied, map};
ghost use Rattle.goal_check.specs.TemplateMeaning.{default_or_false, argument_named, written_or_default, template_value, meant_template};

use aerie_base::{List, Model, Name, OutOfMemory, Parameter, Value};
use goals::Template;
use model_reader::{RawLiteral, RawName};
use rule_check::{activity_named, literal_value, number_of_type, parameters_if_known};
use rule_grammar::RawTemplate;
use std::alloc::Global;

fn default_or_false(default: Option<Value>) -> Value
    ensures { result ≡ default_or_false default }
{
    match default {
        Some(default) => default,
        None => Value::Truth(false),
    }
}

/// The argument with the name of a parameter.
fn argument_named<'a>(
    arguments: &'a [(RawName, RawLiteral)],
    name: &Name,
) -> Option<&'a (RawName, RawLiteral)>
    ensures { option_copied result ≡ argument_named arguments.now name.now }
{
    arguments.iter().find(|argument| argument.0.name == *name)
}

/// The value that is given, or else the default.
fn written_or_default(
    model: &Model,
    parameter: &Parameter,
    argument: Option<&(RawName, RawLiteral)>,
) -> Value
    ensures { result ≡ written_or_default model.now parameter.now (option_copied argument.entry) }
{
    match argument {
        Some(argument) => literal_value(model, &argument.1.what),
        None => default_or_false(parameter.default),
    }
}

/// The value of a parameter. Of a template that is good the arguments are at most 16.
fn template_value(
    model: &Model,
    arguments: &[(RawName, RawLiteral)],
    parameter: &Parameter,
) -> Value
    ensures { result ≡ template_value model.now arguments.now parameter.now }
{
    let argument = argument_named(arguments, &parameter.name);
    written_or_default(model, parameter, argument)
}

/// The values of parameters, in their order.
fn template_values(
    alloc: Global,
    model: &Model,
    arguments: &[(RawName, RawLiteral)],
    parameters: &[Parameter],
) -> Result<List<Value>, OutOfMemory>
    ensures { IfOk result (λ values. values ≡ map (template_value model.now arguments.now) parameters.now) }
{
    let mut values = List::new(alloc);
    for parameter in parameters {
        values.push(template_value(model, arguments, parameter))?;
    }
    Ok(values)
}

/// The template that is meant.
pub(crate) fn meant_template(
    alloc: Global,
    model: &Model,
    template: &RawTemplate,
) -> Result<Template, OutOfMemory>
    ensures { IfOk result (λ meant. meant ≡ meant_template model.now template.now) }
{
    let parameters = parameters_if_known(activity_named(model, &template.kind.name));
    let arguments = template_values(alloc, model, template.arguments.as_slice(), parameters)?;
    Ok(Template {
        kind: number_of_type(model, &template.kind),
        arguments,
    })
}
