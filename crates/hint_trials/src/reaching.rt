//! How far the judging of bytes comes.

ghost use Rattle.std.specs.Prelude.{◌≡◌, Ok, IfOk};
ghost use Rattle.session_reader.specs.Answers.{IsMade};
ghost use Rattle.session_judge.specs.Judging.{judged_session};
ghost use Rattle.session_reader.specs.declared.session_error.SessionError.TheVariants.{OutOfMemory as NoMemory};
ghost use Rattle.hint_trials.specs.Reached.{no_place, place_of_check as place_of_check_by, place_or_none as place_or_none_by, reached as reached_by, reached_of_error as reached_of_error_by, reached_of_rules as reached_of_rules_by, read_answer};

use crate::stages::Reach;
use aerie_base::{OutOfMemory, Place};
use model_check::CheckError;
use session_judge::{JudgeError, judge};
use session_reader::{Session, SessionError, read_session};
use std::alloc::Global;

/// Where no place is told.
const NO_PLACE: Place = Place { line: 0, column: 0 };

/// The place, where there is one.
fn place_or_none(place: Option<Place>) -> Place
    ensures { result ≡ place_or_none_by place }
{
    match place {
        None => NO_PLACE,
        Some(place) => place,
    }
}

/// Where a check refuses.
fn place_of_check(error: &CheckError) -> Place
    ensures { result ≡ place_of_check_by error.now }
{
    match error {
        CheckError::Unknown(place)
        | CheckError::Duplicate(place)
        | CheckError::WrongType(place)
        | CheckError::NotLinear(place)
        | CheckError::OutOfRange(place)
        | CheckError::TooMany { place, .. } => *place,
        CheckError::OutOfMemory => NO_PLACE,
    }
}

/// The stage at which a reader of sessions refuses.
fn reached_of_error(error: SessionError) -> Result<Reach, OutOfMemory>
    ensures told { IfOk result (λ reached. reached ≡ reached_of_error_by error) }
    ensures memory { IfOk result (λ reached. ¬ (error ≡ NoMemory)) }
{
    match error {
        SessionError::TooLarge => Ok(Reach::Size),
        SessionError::NotText { at } => Ok(Reach::Bytes(at)),
        SessionError::Syntax(place) => Ok(Reach::Form(place)),
        SessionError::TooMany { place, .. } => Ok(Reach::Form(place)),
        SessionError::Check(error) => Ok(Reach::Checks(place_of_check(&error))),
        SessionError::Start(place) => Ok(Reach::Start(place)),
        SessionError::Directive { number, .. } => Ok(Reach::Directive(number)),
        SessionError::Client(place) => Ok(Reach::Client(place)),
        SessionError::Dataset { number, .. } => Ok(Reach::Dataset(number)),
        SessionError::OutOfMemory => Err(OutOfMemory),
    }
}

/// What is read of bytes.
fn read(alloc: Global, bytes: &[u8]) -> Result<Session, SessionError>
    ensures { IsMade (read_answer bytes.now) result }
{
    read_session(alloc, bytes)
}

/// What is reached of a session that is read.
fn reached_of_rules(alloc: Global, bytes: &[u8]) -> Result<Reach, OutOfMemory>
    ensures { IfOk result (λ reached. reached ≡ reached_of_rules_by (judged_session bytes.now)) }
{
    match judge(alloc, bytes) {
        Ok(_) => Ok(Reach::Accepted),
        Err(JudgeError::Refused(refusal)) => Ok(Reach::Rules(place_or_none(refusal.place))),
        Err(JudgeError::OutOfMemory) => Err(OutOfMemory),
    }
}

/// How far the judging of bytes comes. They are read once, and once more with their rules where nothing is refused before them; the
/// time is linear in the bytes, but for what looking up names takes.
pub fn reached(alloc: Global, bytes: &[u8]) -> Result<Reach, OutOfMemory>
    ensures exact { IfOk result (λ reached. reached ≡ reached_by bytes.now) }
{
    match read(alloc, bytes) {
        Ok(_) => reached_of_rules(alloc, bytes),
        Err(error) => reached_of_error(error),
    }
}
