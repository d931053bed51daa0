//! The models of a session are checked, each for itself.

ghost use Rattle.std.specs.Prelude.{◌≡◌, IsTrue, IfOk};
ghost use Rattle.std.specs.List.{AllByRecursion};
ghost use Rattle.aerie_base.specs.models.ValidModel.{valid_model};
ghost use Rattle.model_reader.specs.Limits.{IsWithinLimits};
ghost use Rattle.session_reader.specs.Answers.{IsMade};
ghost use Rattle.session_reader.specs.CheckedModels.{AreValid, check_refusal, model_answer, models_answer};

use crate::session_error::SessionError;
use aerie_base::{List, Model, OutOfMemory, Shared};
use model_check::{CheckError, check};
use model_reader::RawModel;
use std::alloc::Global;

/// The refusal of a session by the check of a model.
fn refusal(error: CheckError) -> SessionError
    ensures { result ≡ check_refusal error }
{
    match error {
        CheckError::OutOfMemory => SessionError::OutOfMemory,
        CheckError::Unknown(place) => SessionError::Check(CheckError::Unknown(place)),
        CheckError::Duplicate(place) => SessionError::Check(CheckError::Duplicate(place)),
        CheckError::WrongType(place) => SessionError::Check(CheckError::WrongType(place)),
        CheckError::NotLinear(place) => SessionError::Check(CheckError::NotLinear(place)),
        CheckError::OutOfRange(place) => SessionError::Check(CheckError::OutOfRange(place)),
        CheckError::TooMany { what, place } => {
            SessionError::Check(CheckError::TooMany { what, place })
        }
    }
}

/// The model, which can have several owners.
pub(crate) fn shared(alloc: Global, model: Model) -> Result<Shared<Model>, OutOfMemory>
    ensures same { IfOk result (λ shared. shared ≡ model) }
    ensures valid { IsTrue (valid_model model) }
{
    let _name = model.name();
    Shared::new(alloc, model)
}

/// Checks a model.
#[tactic(auto, using(crate::proofs::Refusals::model_made))]
fn model(alloc: Global, raw: &RawModel) -> Result<Shared<Model>, SessionError>
    requires limits { IsWithinLimits raw.now }
    ensures made { IsMade (model_answer raw.now) result }
    ensures valid { IfOk result (λ model. IsTrue (valid_model model)) }
{
    match check(alloc, raw) {
        Ok(model) => Ok(shared(alloc, model)?),
        Err(error) => Err(refusal(error)),
    }
}

/// Checks the models.
pub(crate) fn models(alloc: Global, raw: &[RawModel]) -> Result<List<Shared<Model>>, SessionError>
    requires limits { AllByRecursion IsWithinLimits raw.now }
    ensures made { IsMade (models_answer raw.now) result }
    ensures valid { IfOk result AreValid }
{
    let mut models = List::with_capacity(alloc, raw.len())?;
    for one in raw {
        models.push(model(alloc, one)?)?;
    }
    Ok(models)
}
