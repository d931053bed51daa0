//! The goals of a session's models.

ghost use Rattle.std.specs.Prelude.{◌≡◌, ◌<◌, IfOk, IsTrue, Some, length};
ghost use Rattle.std.specs.List.{AllByRecursion, list_all};
ghost use Rattle.aerie_text.specs.Marks.{AreTokensWithin};
ghost use Rattle.constraints.specs.GivenSeries.{is_series};
ghost use Rattle.session_reader.specs.WellFormed.{HasSectionsWithin, IsRangeWithin};
ghost use Rattle.session_judge.specs.OfModels.{AreOfModels, are_constraints, are_goals};
ghost use Rattle.session_judge.specs.Rules.{goals_of_part as goals_of_part_by, goals_of_section as goals_of_section_by, session_goals as session_goals_by};

use crate::gathered::Gathered;
use crate::sections::{SectionRange, begin_of, tokens_in};
use crate::telling::told_rule;
use aerie_base::{List, Model, Name, OutOfMemory, Shared, Time};
use aerie_text::Token;
use constraints::Constraint;
use dataset_in::Series;
use goal_check::read_goals;
use goals::Goal;
use refusal_text::Refusal;
use session_reader::{ModelPart, Session};
use std::alloc::Global;

/// Goals, or how their refusal is told.
type GoalsAnswer = Result<Shared<List<Goal>>, Refusal>;

/// The goals of a section.
fn goals_in(
    alloc: Global,
    text: &str,
    tokens: &[Token],
    datasets: &[(Name, Shared<Series>)],
    duration: Time,
    model: &Model,
    constraints: &[Constraint],
    range: SectionRange,
) -> Result<GoalsAnswer, OutOfMemory>
    requires short { length text.now < 4_294_967_295 }
    requires tokens { AreTokensWithin text.now tokens.now }
    requires section { IsRangeWithin (length tokens.now) (Some range) }
    requires series { IsTrue (list_all (λ dataset. is_series dataset.1) datasets.now) }
    ensures exact { IfOk result (λ answer. answer ≡ goals_of_section_by text.now tokens.now datasets.now duration model.now constraints.now (Some range)) }
    ensures of_model { IfOk result (λ answer. IfOk answer (λ goals. IsTrue (are_goals model.now goals))) }
{
    let section = tokens_in(tokens, range);
    match read_goals(alloc, text, section, model, duration, constraints, datasets) {
        Ok(goals) => Ok(Ok(Shared::new(alloc, goals)?)),
        Err(error) => Ok(Err(told_rule(alloc, text, tokens, error)?)),
    }
}

/// The goals of a model, which has none where it has no section.
fn goals_of_part(
    alloc: Global,
    text: &str,
    tokens: &[Token],
    datasets: &[(Name, Shared<Series>)],
    duration: Time,
    part: &ModelPart,
    constraints: &Shared<List<Constraint>>,
) -> Result<GoalsAnswer, OutOfMemory>
    requires short { length text.now < 4_294_967_295 }
    requires tokens { AreTokensWithin text.now tokens.now }
    requires section { IsRangeWithin (length tokens.now) part.now.goals }
    requires series { IsTrue (list_all (λ dataset. is_series dataset.1) datasets.now) }
    ensures exact { IfOk result (λ answer. answer ≡ goals_of_part_by text.now tokens.now datasets.now duration (part.now, constraints.now)) }
    ensures of_model { IfOk result (λ answer. IfOk answer (λ goals. IsTrue (are_goals part.now.model goals))) }
{
    match part.goals {
        None => Ok(Ok(Shared::new(alloc, List::new(alloc))?)),
        Some(range) => {
            let model = part.model.get();
            let kept = constraints.get().as_slice();
            goals_in(alloc, text, tokens, datasets, duration, model, kept, range)
        }
    }
}

/// The goals of all models, each with its own constraints, or what stands first in the text of what is refused of them.
pub(crate) fn session_goals(
    alloc: Global,
    text: &str,
    tokens: &[Token],
    session: &Session,
    constraints: &[Shared<List<Constraint>>],
) -> Result<Result<List<Shared<List<Goal>>>, Refusal>, OutOfMemory>
    requires short { length text.now < 4_294_967_295 }
    requires tokens { AreTokensWithin text.now tokens.now }
    requires sections { AllByRecursion (HasSectionsWithin (length tokens.now)) session.now.models }
    requires series { IsTrue (list_all (λ dataset. is_series dataset.1) session.now.datasets) }
    requires constraints { AreOfModels are_constraints session.now.models constraints.now }
    ensures exact { IfOk result (λ answer. answer ≡ session_goals_by text.now tokens.now session.now constraints.now) }
    ensures of_models { IfOk result (λ answer. IfOk answer (AreOfModels are_goals session.now.models)) }
{
    let datasets = session.datasets.as_slice();
    let duration = session.plan.duration;
    let models = session.models.as_slice();
    let mut gathered = Gathered::new(alloc);
    for number in 0..models.len() {
        let part = &models[number];
        let kept = &constraints[number];
        let answer = goals_of_part(alloc, text, tokens, datasets, duration, part, kept)?;
        gathered = gathered.take(begin_of(part.goals), answer)?;
    }
    Ok(gathered.answer())
}
