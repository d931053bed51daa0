//! The rules of a sequence are read: what is refused of them, and what they mean.

mod meaning;
mod refusals;

ghost use Rattle.std.specs.Prelude.{◌<◌, IfOk, IsTrue, length};
ghost use Rattle.std.specs.List.{list_all};
ghost use Rattle.aerie_text.specs.Marks.{AreTokensWithin};
ghost use Rattle.seq_expand.specs.OfModel.{have_shifts};
ghost use Rattle.rule_check.specs.SequenceAnswers.{IsSequenceAnswer, IsJudgedSequence};

use crate::rule_error::{RuleError, form_error, refusal_error};
use crate::sequence::meaning::sequencing_of;
use crate::sequence::refusals::judge_from;
use aerie_base::{List, Model};
use aerie_text::Token;
use rule_grammar::{RawSequenceItem, read_raw_sequence};
use seq_expand::Sequencing;
use std::alloc::Global;

/// Reads the rules of a sequence that these tokens of a text are, all of them: those of the text, or some of them in a row. An
/// error tells what is refused first: bad syntax, or else what is refused first by place, and at one place by the order of the
/// errors. It takes time linear in the text up to the last of the tokens, but for looking up names among the at most 256 of a
/// sort.
pub fn read_sequence(
    alloc: Global,
    text: &str,
    tokens: &[Token],
    model: &Model,
) -> Result<Sequencing, RuleError>
    requires short { length text.now < 4_294_967_295 }
    requires tokens { AreTokensWithin text.now tokens.now }
    ensures exact { IsSequenceAnswer text.now tokens.now model.now result }
    ensures of_model { IfOk result (λ sequencing. IsTrue (list_all have_shifts sequencing.rules)) }
{
    match read_raw_sequence(alloc, text, tokens) {
        Ok(raw) => judged(alloc, model, &raw),
        Err(cause) => Err(form_error(alloc, cause)),
    }
}

/// The rules that are meant, or what of them is refused first.
fn judged(
    alloc: Global,
    model: &Model,
    raw: &List<RawSequenceItem>,
) -> Result<Sequencing, RuleError>
    ensures of_model { IfOk result (λ sequencing. IsTrue (list_all have_shifts sequencing.rules)) }
    ensures exact { IsJudgedSequence model.now raw.now result }
{
    let mut found = None;
    judge_from(model, raw.as_slice(), 0, &mut found);
    match found {
        Some(refusal) => Err(refusal_error(alloc, refusal)),
        None => Ok(sequencing_of(alloc, model, raw)?),
    }
}
