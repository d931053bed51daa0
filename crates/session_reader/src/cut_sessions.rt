//! The session of a text whose tokens are known.

ghost use Rattle.std.specs.Prelude.{◌≡◌, ◌≤◌, Ok, IfOk, length};
ghost use Rattle.std.specs.List.{AllByRecursion};
ghost use Rattle.aerie_text.specs.Tokens.{tokens_of};
ghost use Rattle.session_grammar.specs.SessionLimits.{IsLimitedSession};
ghost use Rattle.session_reader.specs.Answers.{IsMade};
ghost use Rattle.session_reader.specs.FewClients.{HasFewClients};
ghost use Rattle.session_reader.specs.SessionTexts.{byte_limit, raw_answer, text_answer};
ghost use Rattle.session_reader.specs.WellFormed.{HasSectionsWithin, IsLimited, IsSession};

use crate::reading::form;
use crate::session::Session;
use crate::session_error::SessionError;
use crate::sessions::session;
use aerie_text::Token;
use session_grammar::RawSession;
use std::alloc::Global;

/// The session as it is written in a text of just these tokens.
fn cut_form(alloc: Global, text: &str, tokens: &[Token]) -> Result<RawSession, SessionError>
    requires short { length text.now ≤ byte_limit }
    requires tokens { tokens_of text.now ≡ Ok tokens.now }
    ensures made { IsMade (raw_answer text.now) result }
    ensures limits { IfOk result (IsLimitedSession (length tokens.now)) }
    ensures limited { IfOk result IsLimited }
{
    form(alloc, text, tokens)
}

/// The session that a text means, whose tokens, all of them, these are: what `read_session` answers of its bytes, without cutting it
/// into tokens once more. The time is linear in the text but for what looking up a name takes.
pub fn read_cut_session(
    alloc: Global,
    text: &str,
    tokens: &[Token],
) -> Result<Session, SessionError>
    requires short { length text.now ≤ byte_limit }
    requires tokens { tokens_of text.now ≡ Ok tokens.now }
    ensures exact { IsMade (text_answer text.now) result }
    ensures session { IfOk result IsSession }
    ensures few { IfOk result HasFewClients }
    ensures sections { IfOk result (λ session. AllByRecursion (HasSectionsWithin (length tokens.now)) session.models) }
{
    let raw = cut_form(alloc, text, tokens)?;
    session(alloc, &raw)
}
