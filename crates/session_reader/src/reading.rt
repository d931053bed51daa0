//! The text of a session is read.

ghost use Rattle.std.specs.Prelude.{◌≡◌, ◌≤◌, ◌<◌, Ok, Err, IfOk, length};
ghost use Rattle.std.specs.Str.{IsUtf8};
ghost use Rattle.aerie_text.specs.Marks.{AreTokensWithin};
ghost use Rattle.aerie_text.specs.Tokens.{tokens_of};
ghost use Rattle.session_grammar.specs.SessionLimits.{IsLimitedSession};
ghost use Rattle.session_reader.specs.declared.session_error.SessionError.TheVariants.{TooLarge};
ghost use Rattle.session_reader.specs.Answers.{IsMade, IsRefusal};
ghost use Rattle.session_reader.specs.FewClients.{HasFewClients};
ghost use Rattle.session_reader.specs.SessionTexts.{byte_limit, cut_answer, form_answer, not_text, raw_answer, text_answer};
ghost use Rattle.session_reader.specs.WellFormed.{HasSectionsIn, IsLimited, IsLimitedIn, IsSession};

use crate::session::Session;
use crate::session_error::SessionError;
use crate::sessions::session;
use aerie_text::{TextError, Token, place_of, tokens};
use model_reader::ReadError;
use session_grammar::{RawSession, read_raw_session};
use std::alloc::Global;

/// The most bytes of a session.
const MOST_BYTES: usize = 16_777_216;

/// The session as it is written in a text of these tokens.
pub(crate) fn form(alloc: Global, text: &str, tokens: &[Token]) -> Result<RawSession, SessionError>
    requires short { length text.now ≤ byte_limit }
    requires tokens { AreTokensWithin text.now tokens.now }
    ensures made { IsMade (form_answer text.now tokens.now) result }
    ensures limits { IfOk result (IsLimitedSession (length tokens.now)) }
{
    match read_raw_session(alloc, text, tokens) {
        Ok(raw) => Ok(raw),
        Err(ReadError::Syntax(place)) => Err(SessionError::Syntax(place)),
        Err(ReadError::TooMany { what, place }) => Err(SessionError::TooMany { what, place }),
        Err(ReadError::OutOfMemory) => Err(SessionError::OutOfMemory),
    }
}

/// What is refused of a text of these tokens behind which no token begins: its end, where nothing else is.
fn refused_at_end(alloc: Global, text: &str, tokens: &[Token]) -> SessionError
    requires short { length text.now ≤ byte_limit }
    requires tokens { AreTokensWithin text.now tokens.now }
    ensures { IsRefusal (cut_answer text.now (Ok tokens.now)) result }
{
    match form(alloc, text, tokens) {
        Ok(_) => SessionError::Syntax(place_of(text, text.len())),
        Err(refusal) => refusal,
    }
}

/// What is refused of a text behind which no token begins.
fn cut(alloc: Global, text: &str) -> SessionError
    requires short { length text.now ≤ byte_limit }
    ensures { IsRefusal (cut_answer text.now (tokens_of text.now)) result }
{
    match tokens(alloc, text) {
        Ok(tokens) => refused_at_end(alloc, text, tokens.as_slice()),
        Err(TextError::BadToken { at }) => SessionError::Syntax(place_of(text, at)),
        Err(TextError::OutOfMemory) => SessionError::OutOfMemory,
    }
}

/// The session as it is written.
fn raw(alloc: Global, text: &str) -> Result<RawSession, SessionError>
    requires short { length text.now ≤ byte_limit }
    ensures made { IsMade (raw_answer text.now) result }
    ensures limits { IfOk result (IsLimitedIn text.now) }
    ensures limited { IfOk result IsLimited }
{
    match tokens(alloc, text) {
        Ok(tokens) => form(alloc, text, tokens.as_slice()),
        Err(TextError::BadToken { at }) => Err(cut(alloc, &text[..at])),
        Err(TextError::OutOfMemory) => Err(SessionError::OutOfMemory),
    }
}

/// The session that a text means.
fn text_session(alloc: Global, text: &str) -> Result<Session, SessionError>
    requires short { length text.now ≤ byte_limit }
    ensures exact { IsMade (text_answer text.now) result }
    ensures session { IfOk result IsSession }
    ensures few { IfOk result HasFewClients }
    ensures sections { IfOk result (HasSectionsIn text.now) }
{
    let raw = raw(alloc, text)?;
    session(alloc, &raw)
}

/// Reads a session. Its refusals come in this order over all of it: more than 16,777,216 bytes; bytes that are no UTF-8; the
/// first place at which its form, or a limit, is broken; the checks of models, then those of mappings, the plan section's
/// beginnings, datasets and sections by the first place; the first text that is no instant; the first directive of the plan section that `add` refuses; the name of a client that an earlier one
/// has; the first dataset that is none. Where no token begins, the front of the text is cut into tokens once more. The time is linear
/// in the bytes but for what looking up a name by its hash, or among the few parts of a model, takes.
pub fn read_session(alloc: Global, bytes: &[u8]) -> Result<Session, SessionError>
    ensures large { byte_limit < length bytes.now → result ≡ Err TooLarge }
    ensures not_text { length bytes.now ≤ byte_limit → ¬ (IsUtf8 bytes.now) → result ≡ Err (not_text bytes.now) }
    ensures exact { length bytes.now ≤ byte_limit → IsUtf8 bytes.now → IsMade (text_answer bytes.now) result }
    ensures session { IfOk result IsSession }
    ensures few { IfOk result HasFewClients }
    ensures sections { IfOk result (HasSectionsIn bytes.now) }
{
    if MOST_BYTES < bytes.len() {
        return Err(SessionError::TooLarge);
    }
    match str::from_utf8(bytes) {
        Ok(text) => text_session(alloc, text),
        Err(error) => Err(SessionError::NotText {
            at: error.valid_up_to(),
        }),
    }
}
