//! What is refused of templates is found. A type has at most 16 parameters, so of more arguments one is refused among the first
//! 17, and those behind it are not judged: the time is linear in the arguments.

ghost use Rattle.std.specs.Prelude.{◌≡◌, ◌≤◌, OnOk, IsTrue, Some, [], length, option_copied, slice_get};
ghost use Rattle.std.specs.List.{list_all};
ghost use Rattle.aerie_base.specs.plans.OfModel.{takes};
ghost use Rattle.rule_check.specs.Refusals.{noted, first_diagnostic};
ghost use Rattle.rule_check.specs.RuleLiterals.{activity_named};
ghost use Rattle.goal_check.specs.TemplateRefusals.{has_argument, is_kind_if_known, refusals_of_value, refusals_of_argument, refusals_of_arguments_from, is_given_or_default, refusals_of_given, refusals_of_requires, refusals_of_meant, refusals_by_type, refusals_of_template};

use crate::template::meaning::meant_template;
use aerie_base::{Activity, Kind, Model, Name, OutOfMemory, Parameter};
use diagnostics::{Diagnostic, note, note_unless};
use goals::Template;
use model_reader::{RawLiteral, RawName};
use plan_edit::unmet_require;
use rule_check::laws::read_parts_are_of_models;
use rule_check::{
    WrongRule, activity_named, is_of_kind, judge_literal, known_parameter, literal_kind,
};
use rule_grammar::RawTemplate;
use std::alloc::Global;

// ---- arguments

/// Whether one of some arguments has the name.
fn has_argument(arguments: &[(RawName, RawLiteral)], name: &Name) -> bool
    ensures { result ≡ has_argument arguments.now name.now }
{
    arguments.iter().any(|argument| argument.0.name == *name)
}

/// Whether a type, where it is known, is this one.
fn is_kind_if_known(found: Option<Kind>, kind: Kind) -> bool
    ensures { result ≡ is_kind_if_known found kind }
{
    found.is_none() || is_of_kind(kind, found)
}

/// Refuses a name of no parameter, and a value of another type.
fn judge_value(
    model: &Model,
    name: &RawName,
    value: &RawLiteral,
    parameter: Option<&Parameter>,
    found: &mut Option<Diagnostic<WrongRule>>,
)
    ensures { found.new ≡ noted found.old (refusals_of_value model.now name.now value.now (option_copied parameter.entry)) }
{
    match parameter {
        None => note(found, name.at, WrongRule::Unknown),
        Some(parameter) => {
            let fits = is_kind_if_known(literal_kind(model, &value.what), parameter.kind);
            note_unless(fits, found, name.at, WrongRule::WrongType);
        }
    }
}

/// Judges an argument behind others.
#[tactic(auto, using(diagnostics::specs::NotedInTurn::noted_appended))]
fn judge_argument(
    model: &Model,
    parameters: &[Parameter],
    others: &[(RawName, RawLiteral)],
    argument: &(RawName, RawLiteral),
    found: &mut Option<Diagnostic<WrongRule>>,
)
    ensures { found.new ≡ noted found.old (refusals_of_argument model.now parameters.now others.now argument.now) }
{
    let (name, value) = argument;
    let is_new = !has_argument(others, &name.name);
    note_unless(is_new, found, name.at, WrongRule::Duplicate);
    judge_value(
        model,
        name,
        value,
        known_parameter(parameters, &name.name),
        found,
    );
    judge_literal(model, &value.what, found);
}

/// What is refused first of an argument behind others.
fn refused_argument(
    model: &Model,
    parameters: &[Parameter],
    others: &[(RawName, RawLiteral)],
    argument: &(RawName, RawLiteral),
) -> Option<Diagnostic<WrongRule>>
    ensures { result ≡ first_diagnostic (refusals_of_argument model.now parameters.now others.now argument.now) }
{
    let mut found = None;
    judge_argument(model, parameters, others, argument, &mut found);
    found
}

/// Judges the arguments from this number on, up to the first that is refused.
fn judge_arguments(
    model: &Model,
    parameters: &[Parameter],
    arguments: &[(RawName, RawLiteral)],
    at: usize,
    found: &mut Option<Diagnostic<WrongRule>>,
)
    requires there { at ≤ length arguments.now }
    ensures { found.new ≡ noted found.old (refusals_of_arguments_from model.now parameters.now at arguments.now) }
{
    let (others, rest) = arguments.split_at(at);
    match rest.split_first() {
        None => {}
        Some((argument, _)) => {
            match refused_argument(model, parameters, others, argument) {
                Some(_) => judge_argument(model, parameters, others, argument, found),
                None => judge_arguments(model, parameters, arguments, at + 1, found),
            }
        }
    }
}

// ---- templates

/// Whether a parameter has an argument or a default.
fn is_given_or_default(arguments: &[(RawName, RawLiteral)], parameter: &Parameter) -> bool
    ensures { result ≡ is_given_or_default arguments.now parameter.now }
{
    parameter.default.is_some() || has_argument(arguments, &parameter.name)
}

/// Whether each parameter has an argument or a default.
fn are_given_or_default(arguments: &[(RawName, RawLiteral)], parameters: &[Parameter]) -> bool
    ensures { result ≡ list_all (is_given_or_default arguments.now) parameters.now }
{
    parameters
        .iter()
        .all(|parameter| is_given_or_default(arguments, parameter))
}

/// Judges what is given for a type.
#[tactic(auto, using(diagnostics::specs::NotedInTurn::noted_appended))]
fn judge_given(
    model: &Model,
    activity: &Activity,
    template: &RawTemplate,
    found: &mut Option<Diagnostic<WrongRule>>,
)
    ensures { found.new ≡ noted found.old (refusals_of_given model.now activity.now template.now) }
{
    let parameters = activity.parameters.as_slice();
    let arguments = template.arguments.as_slice();
    let is_whole = are_given_or_default(arguments, parameters);
    note_unless(is_whole, found, template.kind.at, WrongRule::WrongType);
    judge_arguments(model, parameters, arguments, 0, found);
}

/// What is refused first of what is given for a type.
fn refused_given(
    model: &Model,
    activity: &Activity,
    template: &RawTemplate,
) -> Option<Diagnostic<WrongRule>>
    ensures { result ≡ first_diagnostic (refusals_of_given model.now activity.now template.now) }
{
    let mut found = None;
    judge_given(model, activity, template, &mut found);
    found
}

/// Refuses arguments that do not meet a `require` of their type.
fn judge_requires(
    model: &Model,
    kind: &RawName,
    template: &Template,
    found: &mut Option<Diagnostic<WrongRule>>,
)
    requires { IsTrue (takes model.now.enums (slice_get model.now.activities template.now.kind) template.now.arguments) }
    ensures { found.new ≡ noted found.old (refusals_of_requires model.now kind.now template.now) }
{
    let is_met = unmet_require(model, template.kind, template.arguments.as_slice()).is_none();
    note_unless(is_met, found, kind.at, WrongRule::Invalid);
}

/// Judges a template for a type of which nothing else is refused.
fn judge_good(
    alloc: Global,
    model: &Model,
    template: &RawTemplate,
    activity: &Activity,
    found: &mut Option<Diagnostic<WrongRule>>,
) -> Result<(), OutOfMemory>
    requires named { activity_named model.now template.now.kind.name ≡ Some activity.now }
    requires given { refusals_of_given model.now activity.now template.now ≡ [] }
    ensures { OnOk result (found.new ≡ noted found.old (refusals_of_meant model.now template.now)) }
{
    read_parts_are_of_models();
    let _ = model.name();
    let meant = meant_template(alloc, model, template)?;
    judge_requires(model, &template.kind, &meant, found);
    Ok(())
}

/// Judges a template for a type.
fn judge_for(
    alloc: Global,
    model: &Model,
    template: &RawTemplate,
    activity: &Activity,
    found: &mut Option<Diagnostic<WrongRule>>,
) -> Result<(), OutOfMemory>
    requires { activity_named model.now template.now.kind.name ≡ Some activity.now }
    ensures { OnOk result (found.new ≡ noted found.old (refusals_by_type model.now template.now (Some activity.now))) }
{
    match refused_given(model, activity, template) {
        Some(_) => {
            judge_given(model, activity, template, found);
            Ok(())
        }
        None => judge_good(alloc, model, template, activity, found),
    }
}

/// Judges a template of a type, where that is known.
fn judge_by_type(
    alloc: Global,
    model: &Model,
    template: &RawTemplate,
    activity: Option<&Activity>,
    found: &mut Option<Diagnostic<WrongRule>>,
) -> Result<(), OutOfMemory>
    requires { activity_named model.now template.now.kind.name ≡ option_copied activity }
    ensures { OnOk result (found.new ≡ noted found.old (refusals_by_type model.now template.now (option_copied activity.entry))) }
{
    match activity {
        None => {
            note(found, template.kind.at, WrongRule::Unknown);
            Ok(())
        }
        Some(activity) => judge_for(alloc, model, template, activity, found),
    }
}

/// Judges a template.
pub(crate) fn judge_template(
    alloc: Global,
    model: &Model,
    template: &RawTemplate,
    found: &mut Option<Diagnostic<WrongRule>>,
) -> Result<(), OutOfMemory>
    ensures { OnOk result (found.new ≡ noted found.old (refusals_of_template model.now template.now)) }
{
    let activity = activity_named(model, &template.kind.name);
    judge_by_type(alloc, model, template, activity, found)
}
