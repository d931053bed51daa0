//! Goals are read: what is refused of them, and what they mean.

mod meaning;
mod refusals;

ghost use Rattle.std.specs.Prelude.{◌<◌, IfOk, IsTrue, length};
ghost use Rattle.std.specs.List.{list_all};
ghost use Rattle.aerie_text.specs.Marks.{AreTokensWithin};
ghost use Rattle.constraints.specs.GivenSeries.{is_series};
ghost use Rattle.goals.specs.OfModel.{is_goal};
ghost use Rattle.goal_check.specs.GoalAnswers.{IsGoalsAnswer, IsJudgedGoals};

use crate::goal::meaning::meant_goals;
use crate::goal::refusals::judge_from;
use aerie_base::{List, Model, Name, Shared, Time};
use aerie_text::Token;
use constraints::Constraint;
use dataset_in::Series;
use goals::Goal;
use rule_check::laws::read_parts_are_of_models;
use rule_check::{RuleError, form_error, refusal_error};
use rule_grammar::{RawGoal, read_raw_goals};
use std::alloc::Global;

/// Reads the goals of a model that these tokens of a text are, all of them: those of the text, or some of them in a row. `duration`
/// is that of the plan, behind which no range ends; `constraints` are those that a goal may keep; a name in a window may be that of
/// a dataset too. An error tells what is refused first: bad syntax or a window too deep, whichever stands first in the text; or
/// else what is refused first by place, and at one place by the order of the errors. It takes time linear in the text up to the
/// last of the tokens, but for looking up names among the at most 256 of a sort. The goals hold the datasets that they read.
pub fn read_goals(
    alloc: Global,
    text: &str,
    tokens: &[Token],
    model: &Model,
    duration: Time,
    constraints: &[Constraint],
    datasets: &[(Name, Shared<Series>)],
) -> Result<List<Goal>, RuleError>
    requires short { length text.now < 4_294_967_295 }
    requires tokens { AreTokensWithin text.now tokens.now }
    requires series { IsTrue (list_all (λ dataset. is_series dataset.1) datasets.now) }
    ensures exact { IsGoalsAnswer text.now tokens.now model.now duration constraints.now datasets.now result }
    ensures of_model { IfOk result (λ goals. IsTrue (list_all (is_goal model.now) goals)) }
{
    match read_raw_goals(alloc, text, tokens) {
        Ok(raw) => judged(alloc, model, duration, constraints, datasets, &raw),
        Err(cause) => Err(form_error(alloc, cause)),
    }
}

/// The goals that are meant, or what of them is refused first.
fn judged(
    alloc: Global,
    model: &Model,
    duration: Time,
    constraints: &[Constraint],
    datasets: &[(Name, Shared<Series>)],
    raw: &List<RawGoal>,
) -> Result<List<Goal>, RuleError>
    requires series { IsTrue (list_all (λ dataset. is_series dataset.1) datasets.now) }
    ensures of_model { IfOk result (λ goals. IsTrue (list_all (is_goal model.now) goals)) }
    ensures exact { IsJudgedGoals model.now duration constraints.now datasets.now raw.now result }
{
    let _ = model.name();
    read_parts_are_of_models();
    let mut found = None;
    let goals = raw.as_slice();
    judge_from(
        alloc,
        model,
        duration,
        constraints,
        datasets,
        goals,
        0,
        &mut found,
    )?;
    match found {
        Some(refusal) => Err(refusal_error(alloc, refusal)),
        None => Ok(meant_goals(alloc, model, datasets, raw)?),
    }
}
