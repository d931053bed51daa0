//! Sessions in a text that is cut into tokens.

ghost use Rattle.std.specs.Prelude.{◌<◌, IfOk, length};
ghost use Rattle.aerie_text.specs.Marks.{AreTokensWithin};
ghost use Rattle.model_reader.specs.ModelAnswers.{IfSyntax, IfTooMany, UnlessOutOfMemory};
ghost use Rattle.readers.specs.Marks.{marks_of};
ghost use Rattle.session_grammar.specs.SessionAnswers.{answer_of_session, AreSession, IsFirstRefusedOfSession, IsSessionAnswer, IsSessionReadThrough};
ghost use Rattle.session_grammar.specs.SessionLimits.{IsLimitedSession};
ghost use Rattle.session_grammar.specs.reading.Sessions.{whole_session_at};

use crate::laws::{sessions_are_limited, sessions_conform};
use crate::raw::RawSession;
use crate::reading::whole_session;
use aerie_text::Token;
use model_reader::{ReadError, error_of};
use readers::Reader;
use std::alloc::Global;

/// Reads the session that the text is. It takes time linear in the text up to where reading ends: a mark is made when the
/// reader comes to its token.
pub fn read_raw_session(
    alloc: Global,
    text: &str,
    tokens: &[Token],
) -> Result<RawSession, ReadError>
    requires short { length text.now < 4_294_967_295 }
    requires tokens { AreTokensWithin text.now tokens.now }
    ensures exact { IsSessionAnswer text.now tokens.now result }
    ensures limits { IfOk result (λ raw. IsLimitedSession (length tokens.now) raw) }
    ensures read { IfOk result (λ raw. AreSession (marks_of text.now tokens.now)) }
    ensures refused { IfSyntax result (IsFirstRefusedOfSession text.now (marks_of text.now tokens.now)) }
    ensures too_many { IfTooMany result (IsSessionReadThrough (marks_of text.now tokens.now)) }
{
    sessions_conform();
    sessions_are_limited();
    let mut reader = Reader::new(text, tokens, 0);
    read_marks(alloc, text, &mut reader)
}

/// Reads the session that the tokens are.
#[tactic(auto, using(model_reader::proofs::Answered::error_answers))]
fn read_marks(alloc: Global, text: &str, reader: &mut Reader) -> Result<RawSession, ReadError>
    requires { length text.now < 4_294_967_295 }
    ensures { UnlessOutOfMemory (answer_of_session text.now (whole_session_at reader.old)) result }
{
    match whole_session(alloc, reader) {
        Ok(raw) => Ok(raw),
        Err(refusal) => Err(error_of(alloc, text, reader, refusal)?),
    }
}
