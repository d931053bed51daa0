//! The models, activity types and parameters that go by a name. There are few of each: at most 4, 256 and 16.

ghost use Rattle.std.specs.Prelude.{◌≡◌, option_copied};
ghost use Rattle.plan_edit.specs.Arguments.{parameter_position as parameter_position_by};
ghost use Rattle.plan_edit.specs.Editing.{type_position as type_position_by};
ghost use Rattle.session_reader.specs.KnownParts.{model_position as model_position_by, model_named as model_named_by, type_named as type_named_by, parameter_named as parameter_named_by};

use aerie_base::{Activity, Model, Name, Parameter, Shared};

/// The position of the model with a name.
pub(crate) fn model_position(models: &[Shared<Model>], name: &Name) -> Option<usize>
    ensures { result ≡ model_position_by models.now name.now }
{
    models.iter().position(|model| *model.get().name() == *name)
}

/// The model with a name.
pub(crate) fn model_named<'a>(models: &'a [Shared<Model>], name: &Name) -> Option<&'a Model>
    ensures { option_copied result ≡ model_named_by models.now name.now }
{
    match model_position(models, name) {
        Some(place) => Some(models.get(place)?.get()),
        None => None,
    }
}

/// The position of the activity type with a name.
pub(crate) fn type_position(model: &Model, name: &Name) -> Option<usize>
    ensures { result ≡ type_position_by model.now name.now }
{
    model
        .activities()
        .iter()
        .position(|activity| activity.name == *name)
}

/// The activity type with a name.
pub(crate) fn type_named<'a>(model: &'a Model, name: &Name) -> Option<&'a Activity>
    ensures { option_copied result ≡ type_named_by model.now name.now }
{
    match type_position(model, name) {
        Some(place) => model.activities().get(place),
        None => None,
    }
}

/// The position of the parameter with a name.
pub(crate) fn parameter_position(parameters: &[Parameter], name: &Name) -> Option<usize>
    ensures { result ≡ parameter_position_by parameters.now name.now }
{
    parameters
        .iter()
        .position(|parameter| parameter.name == *name)
}

/// The parameter with a name.
pub(crate) fn parameter_named<'a>(parameters: &'a [Parameter], name: &Name) -> Option<&'a Parameter>
    ensures { option_copied result ≡ parameter_named_by parameters.now name.now }
{
    match parameter_position(parameters, name) {
        Some(place) => parameters.get(place),
        None => None,
    }
}
