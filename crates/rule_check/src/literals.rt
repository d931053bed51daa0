//! Literals of rules, and the parameters that they are for. A name is looked for among the at most 256 of a sort.

ghost use Rattle.std.specs.Prelude.{◌≡◌, option_copied};
ghost use Rattle.rule_check.specs.WindowMeaning.{variant_in, number_within};
ghost use Rattle.rule_check.specs.Refusals.{noted};
ghost use Rattle.rule_check.specs.RuleNames.{position_of_enum};
ghost use Rattle.rule_check.specs.RuleLiterals.{activity_named, position_of_parameter, known_parameter, parameters_if_known, refusals_of_named_variant, refusals_of_literal, literal_kind, literal_value};

use crate::causes::WrongRule;
use crate::names::{position_of_enum, variant_position};
use crate::window::meaning::variant_in;
use aerie_base::{Activity, Kind, Model, Name, Number, Parameter, Value};
use diagnostics::{Diagnostic, note, note_unless, short};
use model_reader::{RawLiteralKind, RawName};

// ---- parameters

/// The activity type of a name.
pub fn activity_named<'a>(model: &'a Model, name: &Name) -> Option<&'a Activity>
    ensures { option_copied result ≡ activity_named model.now name.now }
{
    model
        .activities()
        .iter()
        .find(|activity| activity.name == *name)
}

/// The position of the parameter of a name.
pub fn position_of_parameter(parameters: &[Parameter], name: &Name) -> Option<usize>
    ensures { result ≡ position_of_parameter parameters.now name.now }
{
    parameters
        .iter()
        .position(|parameter| parameter.name == *name)
}

/// The parameter of a name.
pub fn known_parameter<'a>(parameters: &'a [Parameter], name: &Name) -> Option<&'a Parameter>
    ensures { option_copied result ≡ known_parameter parameters.now name.now }
{
    parameters.iter().find(|parameter| parameter.name == *name)
}

/// The parameters of a type; one that is unknown has none.
pub fn parameters_if_known(activity: Option<&Activity>) -> &[Parameter]
    ensures { result.now ≡ parameters_if_known (option_copied activity.entry) }
{
    match activity {
        Some(activity) => activity.parameters.as_slice(),
        None => &[],
    }
}

// ---- literals

/// Refuses a variant that is none of the enumeration of this position.
fn judge_named_variant(
    model: &Model,
    place: Option<usize>,
    kind: &RawName,
    variant: &RawName,
    found: &mut Option<Diagnostic<WrongRule>>,
)
    ensures { found.new ≡ noted found.old (refusals_of_named_variant model.now place kind.now variant.now) }
{
    match place {
        None => note(found, kind.at, WrongRule::Unknown),
        Some(number) => {
            let is_known = variant_position(model, number, &variant.name).is_some();
            note_unless(is_known, found, variant.at, WrongRule::Unknown);
        }
    }
}

/// Refuses a literal of no enumeration, or of no variant of it.
pub fn judge_literal(
    model: &Model,
    literal: &RawLiteralKind,
    found: &mut Option<Diagnostic<WrongRule>>,
)
    ensures { found.new ≡ noted found.old (refusals_of_literal model.now literal.now) }
{
    match literal {
        RawLiteralKind::Number(_) => {}
        RawLiteralKind::Truth(_) => {}
        RawLiteralKind::Variant { kind, variant } => {
            let place = position_of_enum(model, &kind.name);
            judge_named_variant(model, place, kind, variant, found);
        }
    }
}

/// The type of a literal, where its enumeration is known.
pub fn literal_kind(model: &Model, literal: &RawLiteralKind) -> Option<Kind>
    ensures { result ≡ literal_kind model.now literal.now }
{
    match literal {
        RawLiteralKind::Number(_) => Some(Kind::Int),
        RawLiteralKind::Truth(_) => Some(Kind::Truth),
        RawLiteralKind::Variant { kind, .. } => {
            let place = position_of_enum(model, &kind.name)?;
            Some(Kind::Enum(short(place)))
        }
    }
}

/// A number; one that is written is within the range.
fn number_within(number: Number) -> Number
    ensures { result ≡ number_within number }
{
    match Number::new(number.get()) {
        Some(number) => number,
        None => Number::new(0).unwrap(),
    }
}

/// The value of a literal; of one that is refused, any.
pub fn literal_value(model: &Model, literal: &RawLiteralKind) -> Value
    ensures { result ≡ literal_value model.now literal.now }
{
    match literal {
        RawLiteralKind::Number(number) => Value::Int(number_within(*number)),
        RawLiteralKind::Truth(truth) => Value::Truth(*truth),
        RawLiteralKind::Variant { kind, variant } => {
            variant_in(model, position_of_enum(model, &kind.name), variant)
        }
    }
}
