//! Constraints are read: what is refused of them, and what they mean.

mod meaning;
mod refusals;

ghost use Rattle.std.specs.Prelude.{◌<◌, IfOk, IsTrue, length};
ghost use Rattle.std.specs.List.{list_all};
ghost use Rattle.aerie_text.specs.Marks.{AreTokensWithin};
ghost use Rattle.constraints.specs.GivenSeries.{is_series};
ghost use Rattle.constraints.specs.OfModel.{is_constraint};
ghost use Rattle.rule_check.specs.RuleErrors.{RuledUnlessOutOfMemory};
ghost use Rattle.rule_check.specs.ConstraintAnswers.{judged_constraints, IsConstraintsAnswer};

use crate::constraint::meaning::constraints_of;
use crate::constraint::refusals::judge_from;
use crate::rule_error::{RuleError, form_error, refusal_error};
use aerie_base::{List, Model, Name, Shared};
use aerie_text::Token;
use constraints::Constraint;
use dataset_in::Series;
use rule_grammar::{RawConstraint, read_raw_constraints};
use std::alloc::Global;

/// Reads the constraints of a model that these tokens of a text are, all of them: those of the text, or some of them in a row. A
/// name in them may be that of a dataset too. An error tells what is refused first: bad syntax or a window too deep, whichever
/// stands first in the text; or else what is refused first by place, and at one place by the order of the errors. It takes time
/// linear in the text up to the last of the tokens, but for looking up names among the at most 256 of a sort. The constraints
/// hold the datasets that they read.
pub fn read_constraints(
    alloc: Global,
    text: &str,
    tokens: &[Token],
    model: &Model,
    datasets: &[(Name, Shared<Series>)],
) -> Result<List<Constraint>, RuleError>
    requires short { length text.now < 4_294_967_295 }
    requires tokens { AreTokensWithin text.now tokens.now }
    requires series { IsTrue (list_all (λ dataset. is_series dataset.1) datasets.now) }
    ensures exact { IsConstraintsAnswer text.now tokens.now model.now datasets.now result }
    ensures of_model { IfOk result (λ constraints. IsTrue (list_all (is_constraint model.now) constraints)) }
{
    match read_raw_constraints(alloc, text, tokens) {
        Ok(raw) => judged(alloc, model, datasets, &raw),
        Err(cause) => Err(form_error(alloc, cause)),
    }
}

/// The constraints that are meant, or what of them is refused first.
fn judged(
    alloc: Global,
    model: &Model,
    datasets: &[(Name, Shared<Series>)],
    raw: &List<RawConstraint>,
) -> Result<List<Constraint>, RuleError>
    requires series { IsTrue (list_all (λ dataset. is_series dataset.1) datasets.now) }
    ensures of_model { IfOk result (λ constraints. IsTrue (list_all (is_constraint model.now) constraints)) }
    ensures exact { RuledUnlessOutOfMemory (judged_constraints model.now datasets.now raw.now) result }
{
    let _ = model.name();
    let mut found = None;
    judge_from(model, datasets, raw.as_slice(), 0, &mut found);
    match found {
        Some(refusal) => Err(refusal_error(alloc, refusal)),
        None => Ok(constraints_of(alloc, model, datasets, raw)?),
    }
}
