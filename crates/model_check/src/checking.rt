//! Models as they are written are checked.

ghost use Rattle.std.specs.Prelude.{◌≡◌, IsTrue, None, Err};
ghost use Rattle.aerie_base.specs.models.ValidModel.{valid_model};
ghost use Rattle.model_check.specs.CheckAnswers.{error_at, told, ToldUnlessOutOfMemory, IsCheckOf, named_model};
ghost use Rattle.model_check.specs.declared.check_error.CheckError.TheVariants.{TooMany};
ghost use Rattle.model_reader.specs.Limits.{IsWithinLimits};

use crate::causes::Cause;
use crate::check_error::CheckError;
use crate::laws::unrefused_models_are_valid;
use crate::parts::{CheckedParts, parts};
use aerie_base::{Model, Name, Place, Text};
use diagnostics::Diagnostic;
use model_reader::RawModel;
use std::alloc::Global;

/// Checks a model as it is written, which is within the limits that its reader judges, and makes the model that it means. An
/// error tells what of it is refused first: by place, and at one place by the order of the errors. It takes time linear in
/// the model but for what looking up a name by its hash takes.
pub fn check(alloc: Global, raw: &RawModel) -> Result<Model, CheckError>
    requires limits { IsWithinLimits raw.now }
    ensures exact { IsCheckOf raw.now result }
{
    unrefused_models_are_valid();
    let name = raw.name.name.copy(alloc)?;
    let mut found = None;
    let parts = parts(alloc, raw, &mut found)?;
    tell(alloc, name, parts, found)
}

/// Tells what was found, or else the model of this name with these parts.
fn tell(
    alloc: Global,
    name: Name,
    parts: CheckedParts,
    found: Option<Diagnostic<Cause>>,
) -> Result<Model, CheckError>
    requires { found ≡ None → IsTrue (valid_model (named_model name parts)) }
    ensures { ToldUnlessOutOfMemory (told found (named_model name parts)) result }
{
    match found {
        Some(diagnostic) => Err(refusal(alloc, diagnostic)),
        None => Ok(Model::new(
            name,
            parts.enums.items,
            parts.cells.items,
            parts.resources.items,
            parts.activities.items,
            parts.daemons.items,
        )),
    }
}

/// The error that tells what was found, or that memory was wanted.
fn refusal(alloc: Global, diagnostic: Diagnostic<Cause>) -> CheckError
    ensures { ToldUnlessOutOfMemory (Err (error_at diagnostic.cause diagnostic.place)) (Err result) }
{
    let place = diagnostic.place;
    match diagnostic.cause {
        Cause::Unknown => CheckError::Unknown(place),
        Cause::Duplicate => CheckError::Duplicate(place),
        Cause::WrongType => CheckError::WrongType(place),
        Cause::NotLinear => CheckError::NotLinear(place),
        Cause::OutOfRange => CheckError::OutOfRange(place),
        Cause::TooManyLocals => too_many(alloc, "locals", place),
        Cause::TooManyTerms => too_many(alloc, "terms", place),
    }
}

/// The error where a limit is passed, or that memory was wanted.
fn too_many(alloc: Global, what: &str, place: Place) -> CheckError
    ensures { ToldUnlessOutOfMemory (Err (TooMany what.now place)) (Err result) }
{
    match Text::new(alloc, what) {
        Ok(what) => CheckError::TooMany { what, place },
        Err(_) => CheckError::OutOfMemory,
    }
}
