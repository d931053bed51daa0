//! The constraints of a session's models.

ghost use Rattle.std.specs.Prelude.{◌≡◌, ◌<◌, IfOk, IsTrue, Some, length};
ghost use Rattle.std.specs.List.{AllByRecursion, list_all};
ghost use Rattle.aerie_text.specs.Marks.{AreTokensWithin};
ghost use Rattle.constraints.specs.GivenSeries.{is_series};
ghost use Rattle.session_reader.specs.WellFormed.{HasSectionsWithin, IsRangeWithin};
ghost use Rattle.session_judge.specs.OfModels.{AreOfModels, are_constraints};
ghost use Rattle.session_judge.specs.Rules.{constraints_of_part as constraints_of_part_by, constraints_of_section as constraints_of_section_by, session_constraints as session_constraints_by};

use crate::gathered::Gathered;
use crate::sections::{SectionRange, begin_of, tokens_in};
use crate::telling::told_rule;
use aerie_base::{List, Model, Name, OutOfMemory, Shared};
use aerie_text::Token;
use constraints::Constraint;
use dataset_in::Series;
use refusal_text::Refusal;
use rule_check::read_constraints;
use session_reader::{ModelPart, Session};
use std::alloc::Global;

/// Constraints, or how their refusal is told.
type ConstraintsAnswer = Result<Shared<List<Constraint>>, Refusal>;

/// The constraints of a section.
fn constraints_in(
    alloc: Global,
    text: &str,
    tokens: &[Token],
    datasets: &[(Name, Shared<Series>)],
    model: &Model,
    range: SectionRange,
) -> Result<ConstraintsAnswer, OutOfMemory>
    requires short { length text.now < 4_294_967_295 }
    requires tokens { AreTokensWithin text.now tokens.now }
    requires section { IsRangeWithin (length tokens.now) (Some range) }
    requires series { IsTrue (list_all (λ dataset. is_series dataset.1) datasets.now) }
    ensures exact { IfOk result (λ answer. answer ≡ constraints_of_section_by text.now tokens.now datasets.now model.now (Some range)) }
    ensures of_model { IfOk result (λ answer. IfOk answer (λ rules. IsTrue (are_constraints model.now rules))) }
{
    match read_constraints(alloc, text, tokens_in(tokens, range), model, datasets) {
        Ok(constraints) => Ok(Ok(Shared::new(alloc, constraints)?)),
        Err(error) => Ok(Err(told_rule(alloc, text, tokens, error)?)),
    }
}

/// The constraints of a model, which has none where it has no section.
fn constraints_of_part(
    alloc: Global,
    text: &str,
    tokens: &[Token],
    datasets: &[(Name, Shared<Series>)],
    part: &ModelPart,
) -> Result<ConstraintsAnswer, OutOfMemory>
    requires short { length text.now < 4_294_967_295 }
    requires tokens { AreTokensWithin text.now tokens.now }
    requires section { IsRangeWithin (length tokens.now) part.now.constraints }
    requires series { IsTrue (list_all (λ dataset. is_series dataset.1) datasets.now) }
    ensures exact { IfOk result (λ answer. answer ≡ constraints_of_part_by text.now tokens.now datasets.now part.now) }
    ensures of_model { IfOk result (λ answer. IfOk answer (λ rules. IsTrue (are_constraints part.now.model rules))) }
{
    match part.constraints {
        None => Ok(Ok(Shared::new(alloc, List::new(alloc))?)),
        Some(range) => constraints_in(alloc, text, tokens, datasets, part.model.get(), range),
    }
}

/// The constraints of all models, or what stands first in the text of what is refused of them.
pub(crate) fn session_constraints(
    alloc: Global,
    text: &str,
    tokens: &[Token],
    session: &Session,
) -> Result<Result<List<Shared<List<Constraint>>>, Refusal>, OutOfMemory>
    requires short { length text.now < 4_294_967_295 }
    requires tokens { AreTokensWithin text.now tokens.now }
    requires sections { AllByRecursion (HasSectionsWithin (length tokens.now)) session.now.models }
    requires series { IsTrue (list_all (λ dataset. is_series dataset.1) session.now.datasets) }
    ensures exact { IfOk result (λ answer. answer ≡ session_constraints_by text.now tokens.now session.now) }
    ensures of_models { IfOk result (λ answer. IfOk answer (AreOfModels are_constraints session.now.models)) }
{
    let datasets = session.datasets.as_slice();
    let mut gathered = Gathered::new(alloc);
    for part in session.models.as_slice() {
        let answer = constraints_of_part(alloc, text, tokens, datasets, part)?;
        gathered = gathered.take(begin_of(part.constraints), answer)?;
    }
    Ok(gathered.answer())
}
