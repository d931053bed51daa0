//! Clients and their commands.

ghost use Rattle.std.specs.Prelude.{◌≡◌, [], map, IfOk};
ghost use Rattle.commands.specs.declared.commands.Command.TheVariants as command;
ghost use Rattle.commands.specs.declared.edits.Edit.TheVariants as edit;
ghost use Rattle.session_grammar.specs.declared.raw.clients.RawCommand.TheVariants as written;
ghost use Rattle.session_reader.specs.ClientCommands.{command_meant, client_meant, clients_meant};
ghost use Rattle.session_reader.specs.ClientNames.{is_client_name as is_client_name_by, repeated_client as repeated_client_by};
ghost use Rattle.session_reader.specs.Quotes.{unquoted as unquoted_by};

use crate::quotes::{BACKQUOTE, unquoted};
use crate::session::Client;
use crate::times::when;
use aerie_base::{List, Name, OutOfMemory, Place, RawArgument, Text};
use commands::{Command, Edit};
use epoch_text::Start;
use session_grammar::{RawClient, RawCommand, RawGiven, RawWhen};
use std::alloc::Global;

/// Whether one of some clients has the name.
fn is_client_name(clients: &[RawClient], name: &Name) -> bool
    ensures { result ≡ is_client_name_by clients.now name.now }
{
    clients.iter().any(|client| client.name == *name)
}

/// The place of the first name that an earlier client has. There are at most 16 clients.
pub(crate) fn repeated_client(clients: &[RawClient]) -> Option<Place>
    ensures { result ≡ repeated_client_by [] clients.now }
{
    for number in 0..clients.len() {
        let client = &clients[number];
        if is_client_name(&clients[..number], &client.name) {
            return Some(client.at);
        }
    }
    None
}

/// The command that adds a directive.
fn add(
    alloc: Global,
    start: Start,
    branch: &Name,
    at: &RawWhen,
    given: &RawGiven,
) -> Result<Command, OutOfMemory>
    ensures { IfOk result (λ made. made ≡ command_meant start (written.Add branch.now at.now given.now)) }
{
    let branch = branch.copy(alloc)?;
    let at = when(start, at);
    let edit = Edit::add(alloc, at, &given.kind, given.arguments.as_slice())?;
    Ok(Command::Edit { branch, edit })
}

/// The command that gives a directive another argument.
fn set(
    alloc: Global,
    branch: &Name,
    id: u32,
    argument: &RawArgument,
) -> Result<Command, OutOfMemory>
    ensures { IfOk result (λ made. made ≡ command.Edit branch.now (edit.Set id argument.now.name argument.now.value)) }
{
    let branch = branch.copy(alloc)?;
    let edit = Edit::set(alloc, id, &argument.name, &argument.value)?;
    Ok(Command::Edit { branch, edit })
}

/// The command that puts the directives of a text in place of a branch's.
fn load(alloc: Global, branch: &Name, text: &Text) -> Result<Command, OutOfMemory>
    ensures { IfOk result (λ made. made ≡ command.Edit branch.now (edit.Load (unquoted_by 96 text.now))) }
{
    let branch = branch.copy(alloc)?;
    let text = Text::new(alloc, unquoted(BACKQUOTE, text.as_str()))?;
    Ok(Command::Edit {
        branch,
        edit: Edit::Load { text },
    })
}

/// The command that is meant.
fn command(alloc: Global, start: Start, raw: &RawCommand) -> Result<Command, OutOfMemory>
    ensures { IfOk result (λ made. made ≡ command_meant start raw.now) }
{
    match raw {
        RawCommand::New { branch } => Ok(Command::New {
            branch: branch.copy(alloc)?,
        }),
        RawCommand::Fork { branch, source } => Command::fork(alloc, branch, source),
        RawCommand::Drop { branch } => Ok(Command::Drop {
            branch: branch.copy(alloc)?,
        }),
        RawCommand::Add { branch, at, given } => add(alloc, start, branch, at, given),
        RawCommand::Remove { branch, id } => Ok(Command::Edit {
            branch: branch.copy(alloc)?,
            edit: Edit::Remove { id: *id },
        }),
        RawCommand::Move { branch, id, at } => Ok(Command::Edit {
            branch: branch.copy(alloc)?,
            edit: Edit::Move {
                id: *id,
                at: when(start, at),
            },
        }),
        RawCommand::Set {
            branch,
            id,
            argument,
        } => set(alloc, branch, *id, argument),
        RawCommand::Load { branch, text } => load(alloc, branch, text),
        RawCommand::Migrate { branch, model } => Command::migrate(alloc, branch, model),
        RawCommand::Show { branch } => Ok(Command::Show {
            branch: branch.copy(alloc)?,
        }),
        RawCommand::Simulate { branch } => Ok(Command::Simulate {
            branch: branch.copy(alloc)?,
        }),
        RawCommand::Schedule { branch } => Ok(Command::Schedule {
            branch: branch.copy(alloc)?,
        }),
        RawCommand::Merge {
            branch,
            source,
            base,
        } => Command::merge(alloc, branch, source, base),
        RawCommand::Expand { branch } => Ok(Command::Expand {
            branch: branch.copy(alloc)?,
        }),
    }
}

/// The commands that are meant.
fn commands(alloc: Global, start: Start, raw: &[RawCommand]) -> Result<List<Command>, OutOfMemory>
    ensures { IfOk result (λ made. made ≡ map (command_meant start) raw.now) }
{
    let mut made = List::with_capacity(alloc, raw.len())?;
    for one in raw {
        made.push(command(alloc, start, one)?)?;
    }
    Ok(made)
}

/// The client that is meant.
fn client(alloc: Global, start: Start, raw: &RawClient) -> Result<Client, OutOfMemory>
    ensures { IfOk result (λ made. made ≡ client_meant start raw.now) }
{
    let name = raw.name.copy(alloc)?;
    Ok(Client {
        name,
        commands: commands(alloc, start, raw.commands.as_slice())?,
    })
}

/// The clients that are meant, with the start of their plans. It takes time linear in their commands.
pub(crate) fn clients(
    alloc: Global,
    start: Start,
    raw: &[RawClient],
) -> Result<List<Client>, OutOfMemory>
    ensures { IfOk result (λ made. made ≡ clients_meant start raw.now) }
{
    let mut made = List::with_capacity(alloc, raw.len())?;
    for one in raw {
        made.push(client(alloc, start, one)?)?;
    }
    Ok(made)
}
