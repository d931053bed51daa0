//! Laws of the checks of a model, each the promise of a function without a body.

ghost use Rattle.std.specs.Prelude.{◌≡◌, true, [], Some, Ok};
ghost use Rattle.std.specs.List.{AllByRecursion};
ghost use Rattle.aerie_base.specs.declared.models.model.Parts.{Parts};
ghost use Rattle.aerie_base.specs.models.ValidModel.{valid_model};
ghost use Rattle.model_reader.specs.declared.raw.models.RawModel.{RawModel};
ghost use Rattle.model_reader.specs.Limits.{IsWithinLimits};
ghost use Rattle.diagnostics.specs.declared.diagnostic.Diagnostic.{Diagnostic};
ghost use Rattle.model_check.specs.CheckAnswers.{IsCheckOf};
ghost use Rattle.model_check.specs.Diagnostics.{number_of_cause};
ghost use Rattle.model_check.specs.declared.causes.Cause.{Cause};
ghost use Rattle.diagnostics.specs.FirstTold.{IsToldFirst, StandsAmong};
ghost use Rattle.model_check.specs.ModelDiagnostics.{model_diagnostics, first_refused};
ghost use Rattle.model_check.specs.ModelMeaning.{model_of};
ghost use Rattle.model_check.specs.RawPlaces.{IsPlaceOf};

use crate::causes::Cause;
use diagnostics::laws::the_first_is_told;

/// A model within the limits of which nothing is refused means a valid model.
pub fn unrefused_models_are_valid()
    ensures { (raw : RawModel) → IsWithinLimits raw → model_diagnostics raw ≡ [] → valid_model (model_of raw) ≡ true }
{}

/// What is refused first of a model is one of all that is refused of it, and no other comes before it in the text, nor at the
/// same place by its number.
pub fn the_first_comes_first()
    ensures { (raw : RawModel) (first : Diagnostic Cause) → first_refused raw ≡ Some first → IsToldFirst number_of_cause first (model_diagnostics raw) }
{
    the_first_is_told::<Cause>();
}

/// Each refusal stands at a place of the model: where a name, a literal, an expression or a statement of it stands.
pub fn each_refusal_has_a_place()
    ensures { (raw : RawModel) → AllByRecursion (λ refusal. IsPlaceOf raw refusal.place) (model_diagnostics raw) }
{}

/// A model of which anything is refused, be it a name or a type, is the written form of no model: none answers its check.
pub fn refused_models_mean_none()
    ensures { (raw : RawModel) (one : Diagnostic Cause) (model : Parts) → StandsAmong one (model_diagnostics raw) → IsCheckOf raw (Ok model) → ⊥ }
{}

/// A model that answers the check of one as it is written is the one that this means; within the limits it is valid.
pub fn answered_models_are_meant()
    ensures meant { (raw : RawModel) (model : Parts) → IsCheckOf raw (Ok model) → model ≡ model_of raw }
    ensures valid { (raw : RawModel) (model : Parts) → IsWithinLimits raw → IsCheckOf raw (Ok model) → valid_model model ≡ true }
{}
