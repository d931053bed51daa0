//! Sessions are judged with all their rules.

ghost use Rattle.std.specs.Prelude.{◌≡◌, ◌≤◌, [], Ok, Err, IfOk, length};
ghost use Rattle.std.specs.List.{AllByRecursion};
ghost use Rattle.aerie_text.specs.Marks.{AreTokensWithin};
ghost use Rattle.aerie_text.specs.Tokens.{tokens_of};
ghost use Rattle.session_reader.specs.Answers.{IsMade};
ghost use Rattle.session_reader.specs.FewClients.{HasFewClients};
ghost use Rattle.session_reader.specs.SessionTexts.{byte_limit, text_answer};
ghost use Rattle.session_reader.specs.WellFormed.{HasSectionsWithin, IsSession};
ghost use Rattle.session_judge.specs.OfModels.{AreOfModels, HasConstraintsOfModels, HasGoalsOfModels, HasSequencesOfModels, are_constraints, are_goals};
ghost use Rattle.session_judge.specs.Judging.{IsJudged, judged_answer, judged_session, judged_text, with_goals as with_goals_by, with_rules as with_rules_by, with_sequences as with_sequences_by};
ghost use Rattle.session_judge.specs.Rules.{session_goals as session_goals_by, session_sequences as session_sequences_by};

use crate::constraint_sections::session_constraints;
use crate::goal_sections::session_goals;
use crate::judge_error::JudgeError;
use crate::judged::JudgedSession;
use crate::sequence_sections::session_sequences;
use crate::telling::{named_refusal, told_offset, told_session};
use aerie_base::{List, Shared};
use aerie_text::{TextError, Token, tokens};
use constraints::Constraint;
use constraints::laws::read_series_may_be_given;
use goals::Goal;
use session_reader::{Session, SessionError, read_cut_session, read_session};
use std::alloc::Global;

/// The most bytes of a session.
const MOST_BYTES: usize = 16_777_216;

/// The session with its constraints, its goals and its sequences.
fn with_sequences(
    alloc: Global,
    text: &str,
    tokens: &[Token],
    session: Session,
    constraints: List<Shared<List<Constraint>>>,
    goals: List<Shared<List<Goal>>>,
) -> Result<JudgedSession, JudgeError>
    requires short { length text.now ≤ byte_limit }
    requires tokens { AreTokensWithin text.now tokens.now }
    requires session { IsSession session }
    requires few { HasFewClients session }
    requires sections { AllByRecursion (HasSectionsWithin (length tokens.now)) session.models }
    requires constraints { AreOfModels are_constraints session.models constraints }
    requires goals { AreOfModels are_goals session.models goals }
    ensures exact { IsJudged (with_sequences_by session constraints goals (session_sequences_by text.now tokens.now session)) result }
    ensures session { IfOk result (λ judged. IsSession judged.session) }
    ensures few { IfOk result (λ judged. HasFewClients judged.session) }
    ensures constraints { IfOk result HasConstraintsOfModels }
    ensures goals { IfOk result HasGoalsOfModels }
    ensures sequences { IfOk result HasSequencesOfModels }
{
    match session_sequences(alloc, text, tokens, &session)? {
        Ok(sequences) => Ok(JudgedSession {
            session,
            constraints,
            goals,
            sequences,
        }),
        Err(refusal) => Err(JudgeError::Refused(refusal)),
    }
}

/// The session with its constraints, and with its goals and its sequences.
fn with_goals(
    alloc: Global,
    text: &str,
    tokens: &[Token],
    session: Session,
    constraints: List<Shared<List<Constraint>>>,
) -> Result<JudgedSession, JudgeError>
    requires short { length text.now ≤ byte_limit }
    requires tokens { AreTokensWithin text.now tokens.now }
    requires session { IsSession session }
    requires few { HasFewClients session }
    requires sections { AllByRecursion (HasSectionsWithin (length tokens.now)) session.models }
    requires constraints { AreOfModels are_constraints session.models constraints }
    ensures exact { IsJudged (with_goals_by text.now tokens.now session constraints (session_goals_by text.now tokens.now session constraints)) result }
    ensures session { IfOk result (λ judged. IsSession judged.session) }
    ensures few { IfOk result (λ judged. HasFewClients judged.session) }
    ensures constraints { IfOk result HasConstraintsOfModels }
    ensures goals { IfOk result HasGoalsOfModels }
    ensures sequences { IfOk result HasSequencesOfModels }
{
    read_series_may_be_given();
    match session_goals(alloc, text, tokens, &session, constraints.as_slice())? {
        Ok(goals) => with_sequences(alloc, text, tokens, session, constraints, goals),
        Err(refusal) => Err(JudgeError::Refused(refusal)),
    }
}

/// The session with its rules.
fn with_rules(
    alloc: Global,
    text: &str,
    tokens: &[Token],
    session: Session,
) -> Result<JudgedSession, JudgeError>
    requires short { length text.now ≤ byte_limit }
    requires tokens { AreTokensWithin text.now tokens.now }
    requires session { IsSession session }
    requires few { HasFewClients session }
    requires sections { AllByRecursion (HasSectionsWithin (length tokens.now)) session.models }
    ensures exact { IsJudged (with_rules_by text.now tokens.now session) result }
    ensures session { IfOk result (λ judged. IsSession judged.session) }
    ensures few { IfOk result (λ judged. HasFewClients judged.session) }
    ensures constraints { IfOk result HasConstraintsOfModels }
    ensures goals { IfOk result HasGoalsOfModels }
    ensures sequences { IfOk result HasSequencesOfModels }
{
    read_series_may_be_given();
    match session_constraints(alloc, text, tokens, &session)? {
        Ok(constraints) => with_goals(alloc, text, tokens, session, constraints),
        Err(refusal) => Err(JudgeError::Refused(refusal)),
    }
}

/// The text, by its tokens, of which this is what is read.
fn judge_read(
    alloc: Global,
    text: &str,
    tokens: &[Token],
    read: Result<Session, SessionError>,
) -> Result<JudgedSession, JudgeError>
    requires short { length text.now ≤ byte_limit }
    requires tokens { AreTokensWithin text.now tokens.now }
    requires read { IsMade (text_answer text.now) read }
    requires session { IfOk read IsSession }
    requires few { IfOk read HasFewClients }
    requires sections { IfOk read (λ session. AllByRecursion (HasSectionsWithin (length tokens.now)) session.models) }
    ensures exact { IsJudged (judged_answer text.now tokens.now (text_answer text.now)) result }
    ensures session { IfOk result (λ judged. IsSession judged.session) }
    ensures few { IfOk result (λ judged. HasFewClients judged.session) }
    ensures constraints { IfOk result HasConstraintsOfModels }
    ensures goals { IfOk result HasGoalsOfModels }
    ensures sequences { IfOk result HasSequencesOfModels }
{
    match read {
        Ok(session) => with_rules(alloc, text, tokens, session),
        Err(error) => Err(JudgeError::Refused(told_session(alloc, text, tokens, error)?)),
    }
}

/// A text that cannot be cut into tokens is refused.
fn judge_uncut(alloc: Global, text: &str, at: usize) -> Result<JudgedSession, JudgeError>
    requires short { length text.now ≤ byte_limit }
    requires uncut { tokens_of text.now ≡ Err at }
    ensures exact { IsJudged (judged_answer text.now [] (text_answer text.now)) result }
    ensures session { IfOk result (λ judged. IsSession judged.session) }
    ensures few { IfOk result (λ judged. HasFewClients judged.session) }
    ensures constraints { IfOk result HasConstraintsOfModels }
    ensures goals { IfOk result HasGoalsOfModels }
    ensures sequences { IfOk result HasSequencesOfModels }
{
    match read_session(alloc, text.as_bytes()) {
        Ok(_) => unreachable!(),
        Err(error) => Err(JudgeError::Refused(told_session(alloc, text, &[], error)?)),
    }
}

/// The session that a text is.
fn judge_text(alloc: Global, text: &str) -> Result<JudgedSession, JudgeError>
    requires short { length text.now ≤ byte_limit }
    ensures exact { IsJudged (judged_text text.now) result }
    ensures session { IfOk result (λ judged. IsSession judged.session) }
    ensures few { IfOk result (λ judged. HasFewClients judged.session) }
    ensures constraints { IfOk result HasConstraintsOfModels }
    ensures goals { IfOk result HasGoalsOfModels }
    ensures sequences { IfOk result HasSequencesOfModels }
{
    match tokens(alloc, text) {
        Ok(tokens) => {
            let tokens = tokens.as_slice();
            judge_read(alloc, text, tokens, read_cut_session(alloc, text, tokens))
        }
        Err(TextError::BadToken { at }) => judge_uncut(alloc, text, at),
        Err(TextError::OutOfMemory) => Err(JudgeError::OutOfMemory),
    }
}

/// The session that bytes are, with all its rules, or the first refusal: too many bytes, bytes that are no text, what is
/// refused of the session, and then of the constraints, and of the sequences, the refusal that stands first in the text. The time is linear in the
/// bytes, but for what looking up names takes.
pub fn judge(alloc: Global, bytes: &[u8]) -> Result<JudgedSession, JudgeError>
    ensures exact { IsJudged (judged_session bytes.now) result }
    ensures session { IfOk result (λ judged. IsSession judged.session) }
    ensures few { IfOk result (λ judged. HasFewClients judged.session) }
    ensures constraints { IfOk result HasConstraintsOfModels }
    ensures goals { IfOk result HasGoalsOfModels }
    ensures sequences { IfOk result HasSequencesOfModels }
{
    if MOST_BYTES < bytes.len() {
        return Err(JudgeError::Refused(named_refusal(alloc, "TooLarge")?));
    }
    match str::from_utf8(bytes) {
        Ok(text) => judge_text(alloc, text),
        Err(error) => Err(JudgeError::Refused(told_offset(alloc, error.valid_up_to())?)),
    }
}
