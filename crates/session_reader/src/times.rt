//! When directives start: instants become times behind the start of the plan.

ghost use Rattle.std.specs.Prelude.{◌≡◌};
ghost use Rattle.epoch_text.specs.Starts.{start_of};
ghost use Rattle.session_reader.specs.Quotes.{unquoted as unquoted_by};
ghost use Rattle.session_reader.specs.Times.{misread_client as misread_client_by, misread_command as misread_command_by, misread_directive, misread_instant as misread_instant_by, misread_when as misread_when_by, first_misread, starts_answer, time_from as time_from_by, time_or_longest as time_or_longest_by, when_meant};

use crate::quotes::{QUOTATION_MARK, unquoted};
use crate::session_error::SessionError;
use crate::starts::start;
use aerie_base::{Place, TIME_LIMIT, Time, When};
use epoch_text::{Start, read_start};
use session_grammar::{RawClient, RawCommand, RawDirective, RawSession, RawStart, RawWhen};

/// The instant of a text, where it is one.
fn instant(raw: &RawStart) -> Option<Start>
    ensures { result ≡ start_of (unquoted_by 34 raw.now.text) }
{
    read_start(unquoted(QUOTATION_MARK, raw.text.as_str())).ok()
}

/// The time, or the longest where there is none.
fn time_or_longest(time: Option<Time>) -> Time
    ensures { result ≡ time_or_longest_by time }
{
    match time {
        Some(time) => time,
        None => Time::new(TIME_LIMIT).unwrap(),
    }
}

/// The time of an instant in a plan with a start.
fn time_from(start: Start, instant: Option<Start>) -> Time
    ensures { result ≡ time_from_by start instant }
{
    match instant {
        None => time_or_longest(None),
        Some(instant) => time_or_longest(start.time_of(instant)),
    }
}

/// When a directive starts.
pub(crate) fn when(start: Start, raw: &RawWhen) -> When
    ensures { result ≡ when_meant start raw.now }
{
    match raw {
        RawWhen::Planned(when) => *when,
        RawWhen::Instant(raw) => When {
            start: time_from(start, instant(raw)),
            anchor: None,
        },
    }
}

/// The place of a text that is no instant.
fn misread_when(raw: &RawWhen) -> Option<Place>
    ensures { result ≡ misread_when_by raw.now }
{
    match raw {
        RawWhen::Planned(_) => None,
        RawWhen::Instant(raw) => match instant(raw) {
            None => Some(raw.at),
            Some(_) => None,
        },
    }
}

/// The same of a command.
fn misread_command(raw: &RawCommand) -> Option<Place>
    ensures { result ≡ misread_command_by raw.now }
{
    match raw {
        RawCommand::Add { at, .. } => misread_when(at),
        RawCommand::Move { at, .. } => misread_when(at),
        _ => None,
    }
}

/// The first such place among directives.
fn misread_in_directives(directives: &[RawDirective]) -> Option<Place>
    ensures { result ≡ first_misread misread_directive directives.now }
{
    for directive in directives {
        let bad = misread_when(&directive.at);
        if bad.is_some() {
            return bad;
        }
    }
    None
}

/// The first such place among commands.
fn misread_in_commands(commands: &[RawCommand]) -> Option<Place>
    ensures { result ≡ first_misread misread_command_by commands.now }
{
    for command in commands {
        let bad = misread_command(command);
        if bad.is_some() {
            return bad;
        }
    }
    None
}

/// The first such place among the commands of clients.
fn misread_in_clients(clients: &[RawClient]) -> Option<Place>
    ensures { result ≡ first_misread misread_client_by clients.now }
{
    for client in clients {
        let bad = misread_in_commands(client.commands.as_slice());
        if bad.is_some() {
            return bad;
        }
    }
    None
}

/// The first text in a session that is no instant, where one says when a directive starts.
fn misread_instant(raw: &RawSession) -> Option<Place>
    ensures { result ≡ misread_instant_by raw.now }
{
    match misread_in_directives(raw.plan.directives.as_slice()) {
        Some(place) => Some(place),
        None => misread_in_clients(raw.clients.as_slice()),
    }
}

/// Reads the start of the plans, where all texts that say when directives start are instants too. It takes time linear in these.
pub(crate) fn starts(raw: &RawSession) -> Result<Start, SessionError>
    ensures { result ≡ starts_answer raw.now }
{
    let start = start(&raw.plan.start)?;
    match misread_instant(raw) {
        None => Ok(start),
        Some(place) => Err(SessionError::Start(place)),
    }
}
