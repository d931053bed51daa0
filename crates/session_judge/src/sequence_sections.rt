//! The rules by which a session's models give commands.

ghost use Rattle.std.specs.Prelude.{◌≡◌, ◌<◌, IfOk, IsTrue, Some, length};
ghost use Rattle.std.specs.List.{AllByRecursion};
ghost use Rattle.aerie_text.specs.Marks.{AreTokensWithin};
ghost use Rattle.session_reader.specs.WellFormed.{HasSectionsWithin, IsRangeWithin};
ghost use Rattle.session_judge.specs.OfModels.{AreOfModels, are_sendable};
ghost use Rattle.session_judge.specs.Rules.{sequence_of_part as sequence_of_part_by, sequence_of_section as sequence_of_section_by, session_sequences as session_sequences_by};

use crate::gathered::Gathered;
use crate::sections::{SectionRange, begin_of, tokens_in};
use crate::telling::told_rule;
use aerie_base::{List, Model, OutOfMemory, Shared};
use aerie_text::Token;
use refusal_text::Refusal;
use rule_check::read_sequence;
use seq_expand::Sequencing;
use session_reader::{ModelPart, Session};
use std::alloc::Global;

/// Rules, or how their refusal is told.
type SequenceAnswer = Result<Shared<Sequencing>, Refusal>;

/// The rules of a section.
fn sequence_in(
    alloc: Global,
    text: &str,
    tokens: &[Token],
    model: &Model,
    range: SectionRange,
) -> Result<SequenceAnswer, OutOfMemory>
    requires short { length text.now < 4_294_967_295 }
    requires tokens { AreTokensWithin text.now tokens.now }
    requires section { IsRangeWithin (length tokens.now) (Some range) }
    ensures exact { IfOk result (λ answer. answer ≡ sequence_of_section_by text.now tokens.now model.now (Some range)) }
    ensures of_model { IfOk result (λ answer. IfOk answer (λ rules. IsTrue (are_sendable model.now rules))) }
{
    match read_sequence(alloc, text, tokens_in(tokens, range), model) {
        Ok(sequencing) => Ok(Ok(Shared::new(alloc, sequencing)?)),
        Err(error) => Ok(Err(told_rule(alloc, text, tokens, error)?)),
    }
}

/// The rules of a model, which has none where it has no section.
fn sequence_of_part(
    alloc: Global,
    text: &str,
    tokens: &[Token],
    part: &ModelPart,
) -> Result<SequenceAnswer, OutOfMemory>
    requires short { length text.now < 4_294_967_295 }
    requires tokens { AreTokensWithin text.now tokens.now }
    requires section { IsRangeWithin (length tokens.now) part.now.sequence }
    ensures exact { IfOk result (λ answer. answer ≡ sequence_of_part_by text.now tokens.now part.now) }
    ensures of_model { IfOk result (λ answer. IfOk answer (λ rules. IsTrue (are_sendable part.now.model rules))) }
{
    match part.sequence {
        None => {
            let sequencing = Sequencing {
                rules: List::new(alloc),
                spacings: List::new(alloc),
            };
            Ok(Ok(Shared::new(alloc, sequencing)?))
        }
        Some(range) => sequence_in(alloc, text, tokens, part.model.get(), range),
    }
}

/// The rules of all models, or what stands first in the text of what is refused of them.
pub(crate) fn session_sequences(
    alloc: Global,
    text: &str,
    tokens: &[Token],
    session: &Session,
) -> Result<Result<List<Shared<Sequencing>>, Refusal>, OutOfMemory>
    requires short { length text.now < 4_294_967_295 }
    requires tokens { AreTokensWithin text.now tokens.now }
    requires sections { AllByRecursion (HasSectionsWithin (length tokens.now)) session.now.models }
    ensures exact { IfOk result (λ answer. answer ≡ session_sequences_by text.now tokens.now session.now) }
    ensures of_models { IfOk result (λ answer. IfOk answer (AreOfModels are_sendable session.now.models)) }
{
    let mut gathered = Gathered::new(alloc);
    for part in session.models.as_slice() {
        let answer = sequence_of_part(alloc, text, tokens, part)?;
        gathered = gathered.take(begin_of(part.sequence), answer)?;
    }
    Ok(gathered.answer())
}
