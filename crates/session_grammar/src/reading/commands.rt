//! Clients and their commands.

ghost use Rattle.readers.specs.Implements.{Consumes, MayConsume};
ghost use Rattle.readers.specs.Verdicts.{IsVerdict};
ghost use Rattle.session_grammar.specs.grammar.Rules.{client_rule};
ghost use Rattle.session_grammar.specs.grammar.Written.{written};
ghost use Rattle.session_grammar.specs.reading.Commands.{named_at, fork_at, merge_at, add_at, remove_at, migrate_at, directive_move_at, moved_at, move_at, set_at, load_at, branches_at, edit_at, view_at, command_at, ended_command_at, commands_at, client_at};

use crate::raw::{RawClient, RawCommand};
use crate::reading::directives::{argument, given, id, when};
use aerie_base::{List, Name, Text};
use aerie_text::Sort;
use readers::{Element, Limit, Most, Reader, Refusal, ended_by, row};
use std::alloc::Global;

/// How many commands a client may have.
const MOST_COMMANDS: Most = Most {
    count: 4_096,
    limit: Limit::Commands,
};

/// Reads this word and a name.
#[tactic(auto, unfolding(crate::specs::reading::Commands::named_at))]
fn named(alloc: Global, reader: &mut Reader, sort: Sort) -> Result<Name, Refusal>
    ensures { Consumes (named_at sort) reader.old reader.new result }
{
    reader.take(sort)?;
    let (_at, name) = reader.name(alloc)?;
    Ok(name)
}

#[tactic(auto, unfolding(crate::specs::reading::Commands::fork_at))]
fn fork(alloc: Global, reader: &mut Reader) -> Result<RawCommand, Refusal>
    ensures { Consumes fork_at reader.old reader.new result }
{
    let branch = named(alloc, reader, Sort::Fork)?;
    let source = named(alloc, reader, Sort::From)?;
    Ok(RawCommand::Fork { branch, source })
}

#[tactic(auto, unfolding(crate::specs::reading::Commands::merge_at))]
fn merge(alloc: Global, reader: &mut Reader) -> Result<RawCommand, Refusal>
    ensures { Consumes merge_at reader.old reader.new result }
{
    let branch = named(alloc, reader, Sort::Merge)?;
    let source = named(alloc, reader, Sort::From)?;
    let base = named(alloc, reader, Sort::Of)?;
    Ok(RawCommand::Merge {
        branch,
        source,
        base,
    })
}

#[tactic(auto, unfolding(crate::specs::reading::Commands::add_at))]
fn add(alloc: Global, reader: &mut Reader) -> Result<RawCommand, Refusal>
    ensures { Consumes add_at reader.old reader.new result }
{
    let branch = named(alloc, reader, Sort::Add)?;
    reader.take(Sort::At)?;
    let at = when(alloc, reader)?;
    let given = given(alloc, reader)?;
    Ok(RawCommand::Add { branch, at, given })
}

#[tactic(auto, unfolding(crate::specs::reading::Commands::remove_at))]
fn remove(alloc: Global, reader: &mut Reader) -> Result<RawCommand, Refusal>
    ensures { Consumes remove_at reader.old reader.new result }
{
    let branch = named(alloc, reader, Sort::Remove)?;
    let id = id(reader)?;
    Ok(RawCommand::Remove { branch, id })
}

#[tactic(auto, unfolding(crate::specs::reading::Commands::migrate_at))]
fn migrate(alloc: Global, reader: &mut Reader, branch: Name) -> Result<RawCommand, Refusal>
    ensures { Consumes (migrate_at branch) reader.old reader.new result }
{
    let model = named(alloc, reader, Sort::To)?;
    Ok(RawCommand::Migrate { branch, model })
}

#[tactic(auto, unfolding(crate::specs::reading::Commands::directive_move_at))]
fn directive_move(alloc: Global, reader: &mut Reader, branch: Name) -> Result<RawCommand, Refusal>
    ensures { Consumes (directive_move_at branch) reader.old reader.new result }
{
    let id = id(reader)?;
    reader.take(Sort::To)?;
    let at = when(alloc, reader)?;
    Ok(RawCommand::Move { branch, id, at })
}

/// What a move says behind its branch.
#[tactic(auto, unfolding(crate::specs::reading::Commands::moved_at))]
fn moved(alloc: Global, reader: &mut Reader, branch: Name) -> Result<RawCommand, Refusal>
    ensures { Consumes (moved_at branch) reader.old reader.new result }
{
    if reader.next_is(Sort::To) {
        migrate(alloc, reader, branch)
    } else {
        directive_move(alloc, reader, branch)
    }
}

#[tactic(auto, unfolding(crate::specs::reading::Commands::move_at))]
fn move_(alloc: Global, reader: &mut Reader) -> Result<RawCommand, Refusal>
    ensures { Consumes move_at reader.old reader.new result }
{
    let branch = named(alloc, reader, Sort::Move)?;
    moved(alloc, reader, branch)
}

#[tactic(auto, unfolding(crate::specs::reading::Commands::set_at))]
fn set(alloc: Global, reader: &mut Reader) -> Result<RawCommand, Refusal>
    ensures { Consumes set_at reader.old reader.new result }
{
    let branch = named(alloc, reader, Sort::Set)?;
    let id = id(reader)?;
    let argument = argument(alloc, reader)?;
    Ok(RawCommand::Set {
        branch,
        id,
        argument,
    })
}

#[tactic(auto, unfolding(crate::specs::reading::Commands::load_at))]
fn load(alloc: Global, reader: &mut Reader) -> Result<RawCommand, Refusal>
    ensures { Consumes load_at reader.old reader.new result }
{
    let branch = named(alloc, reader, Sort::Load)?;
    let (_at, raw) = reader.word(Sort::Raw)?;
    let text = Text::new(alloc, raw)?;
    Ok(RawCommand::Load { branch, text })
}

/// A command that opens branches, ends them or brings them together.
#[tactic(auto, unfolding(crate::specs::reading::Commands::branches_at, crate::specs::reading::Commands::of_branch_at))]
fn branches(alloc: Global, reader: &mut Reader) -> Result<RawCommand, Refusal>
    ensures { Consumes branches_at reader.old reader.new result }
{
    if reader.next_is(Sort::New) {
        let branch = named(alloc, reader, Sort::New)?;
        Ok(RawCommand::New { branch })
    } else if reader.next_is(Sort::Fork) {
        fork(alloc, reader)
    } else if reader.next_is(Sort::Drop) {
        let branch = named(alloc, reader, Sort::Drop)?;
        Ok(RawCommand::Drop { branch })
    } else {
        merge(alloc, reader)
    }
}

/// A command that edits a branch.
#[tactic(auto, unfolding(crate::specs::reading::Commands::edit_at))]
fn edit(alloc: Global, reader: &mut Reader) -> Result<RawCommand, Refusal>
    ensures { Consumes edit_at reader.old reader.new result }
{
    if reader.next_is(Sort::Add) {
        add(alloc, reader)
    } else if reader.next_is(Sort::Remove) {
        remove(alloc, reader)
    } else if reader.next_is(Sort::Move) {
        move_(alloc, reader)
    } else if reader.next_is(Sort::Set) {
        set(alloc, reader)
    } else {
        load(alloc, reader)
    }
}

/// A command that shows a branch, or what comes of it.
#[tactic(auto, unfolding(crate::specs::reading::Commands::view_at, crate::specs::reading::Commands::of_branch_at))]
fn view(alloc: Global, reader: &mut Reader) -> Result<RawCommand, Refusal>
    ensures { Consumes view_at reader.old reader.new result }
{
    if reader.next_is(Sort::Show) {
        let branch = named(alloc, reader, Sort::Show)?;
        Ok(RawCommand::Show { branch })
    } else if reader.next_is(Sort::Simulate) {
        let branch = named(alloc, reader, Sort::Simulate)?;
        Ok(RawCommand::Simulate { branch })
    } else if reader.next_is(Sort::Schedule) {
        let branch = named(alloc, reader, Sort::Schedule)?;
        Ok(RawCommand::Schedule { branch })
    } else {
        let branch = named(alloc, reader, Sort::Expand)?;
        Ok(RawCommand::Expand { branch })
    }
}

/// Reads a command.
#[tactic(auto, unfolding(crate::specs::reading::Commands::command_at))]
fn command(alloc: Global, reader: &mut Reader) -> Result<RawCommand, Refusal>
    ensures { Consumes command_at reader.old reader.new result }
{
    if reader.next_is_one_of(&[Sort::New, Sort::Fork, Sort::Drop, Sort::Merge]) {
        branches(alloc, reader)
    } else if reader.next_is_one_of(&[Sort::Add, Sort::Remove, Sort::Move, Sort::Set, Sort::Load]) {
        edit(alloc, reader)
    } else {
        view(alloc, reader)
    }
}

/// A command and its semicolon.
struct OneCommand;

impl Element for OneCommand {
    type Part = RawCommand;

    ghost part_at = { ended_command_at };

    #[tactic(auto, unfolding(crate::specs::reading::Commands::ended_command_at))]
    fn part(alloc: Global, reader: &mut Reader) -> Result<RawCommand, Refusal> {
        let command = command(alloc, reader)?;
        ended_by(reader, Sort::Semicolon, command)
    }
}

/// Reads the commands of a client.
#[tactic(auto, unfolding(crate::specs::reading::Commands::commands_at))]
fn commands(alloc: Global, reader: &mut Reader) -> Result<List<RawCommand>, Refusal>
    ensures { MayConsume commands_at reader.old reader.new result }
{
    let words = [
        Sort::New,
        Sort::Fork,
        Sort::Drop,
        Sort::Merge,
        Sort::Add,
        Sort::Remove,
        Sort::Move,
        Sort::Set,
        Sort::Load,
        Sort::Show,
        Sort::Simulate,
        Sort::Schedule,
        Sort::Expand,
    ];
    row::<OneCommand>(alloc, reader, &words, Some(MOST_COMMANDS))
}

#[tactic(auto, unfolding(crate::specs::reading::Commands::client_at))]
fn client_parts(alloc: Global, reader: &mut Reader) -> Result<RawClient, Refusal>
    ensures { Consumes client_at reader.old reader.new result }
{
    reader.take(Sort::Client)?;
    let (at, name) = reader.name(alloc)?;
    reader.take(Sort::OpenBrace)?;
    let commands = commands(alloc, reader)?;
    let client = RawClient { at, name, commands };
    ended_by(reader, Sort::CloseBrace, client)
}

/// Reads a client with its commands. A refusal stands at the first token that is left, or at the end where none is left:
/// Syntax at the first that no reading of the grammar reads, TooMany at the first token of the 4,097th command. The time is
/// linear in the tokens of the client.
pub fn client(alloc: Global, reader: &mut Reader) -> Result<RawClient, Refusal>
    ensures read { Consumes client_at reader.old reader.new result }
    ensures verdict { IsVerdict written client_rule reader.old reader.new result }
{
    client_parts(alloc, reader)
}
