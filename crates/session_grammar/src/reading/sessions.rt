//! Sessions.

ghost use Rattle.readers.specs.Implements.{Consumes, Implements, MayConsume};
ghost use Rattle.readers.specs.Lists.{one_more_of, pushed_at};
ghost use Rattle.model_reader.specs.reading.Models.{model_at};
ghost use Rattle.session_grammar.specs.reading.Commands.{client_at};
ghost use Rattle.session_grammar.specs.reading.Sessions.{most_models, models_at, clients_at, sections_at, session_within, whole_of, whole_session_at};

use crate::raw::{RawClient, RawSections, RawSession};
use crate::reading::commands::client;
use crate::reading::mappings::mappings;
use crate::reading::plans::{datasets, plan};
use crate::reading::sections::sections_with;
use aerie_base::List;
use aerie_text::Sort;
use model_reader::{RawModel, model};
use readers::{Element, Limit, Most, Reader, Refusal, row};
use std::alloc::Global;

/// How many models a session may have.
const MOST_MODELS: usize = 4;

/// How many clients a session may have.
const MOST_CLIENTS: Most = Most {
    count: 16,
    limit: Limit::Clients,
};

/// Reads a model, and puts it behind those so far.
fn pushed_model(
    alloc: Global,
    reader: &mut Reader,
    so_far: List<RawModel>,
) -> Result<List<RawModel>, Refusal>
    ensures { Consumes (pushed_at model_at so_far) reader.old reader.new result }
{
    let mut models = so_far;
    let last = model(alloc, reader)?;
    models.push(last)?;
    Ok(models)
}

/// The same, where there may be one more.
fn one_more_model(
    alloc: Global,
    reader: &mut Reader,
    so_far: List<RawModel>,
) -> Result<List<RawModel>, Refusal>
    ensures { Consumes (one_more_of most_models model_at so_far) reader.old reader.new result }
{
    if MOST_MODELS <= so_far.len() {
        return Err(Refusal::TooMany(Limit::Models));
    }
    pushed_model(alloc, reader, so_far)
}

/// Reads the models of a session.
#[tactic(auto, unfolding(crate::specs::reading::Sessions::models_at))]
fn models(alloc: Global, reader: &mut Reader) -> Result<List<RawModel>, Refusal>
    ensures { Consumes models_at reader.old reader.new result }
{
    let first = model(alloc, reader)?;
    let mut models = List::new(alloc);
    models.push(first)?;
    while reader.next_is(Sort::Model) {
        models = one_more_model(alloc, reader, models)?;
    }
    Ok(models)
}

/// A client.
struct OneClient;

impl Element for OneClient {
    type Part = RawClient;

    ghost part_at = { client_at };

    fn part(alloc: Global, reader: &mut Reader) -> Result<RawClient, Refusal> {
        client(alloc, reader)
    }
}

/// Reads the clients of a session.
#[tactic(auto, unfolding(crate::specs::reading::Sessions::clients_at))]
fn clients(alloc: Global, reader: &mut Reader) -> Result<List<RawClient>, Refusal>
    ensures { MayConsume clients_at reader.old reader.new result }
{
    row::<OneClient>(alloc, reader, &[Sort::Client], Some(MOST_CLIENTS))
}

/// Reads the sections of a session, in a text of so many tokens.
#[tactic(auto, unfolding(crate::specs::reading::Sessions::sections_at))]
fn sections(alloc: Global, reader: &mut Reader, count: usize) -> Result<RawSections, Refusal>
    ensures { MayConsume (sections_at count) reader.old reader.new result }
{
    let constraints = sections_with(alloc, reader, Sort::Constraints, count)?;
    let goals = sections_with(alloc, reader, Sort::Goals, count)?;
    let sequences = sections_with(alloc, reader, Sort::Sequence, count)?;
    Ok(RawSections {
        constraints,
        goals,
        sequences,
    })
}

/// Reads a session, in a text of so many tokens.
#[tactic(auto, unfolding(crate::specs::reading::Sessions::session_within))]
fn session_within(alloc: Global, reader: &mut Reader, count: usize) -> Result<RawSession, Refusal>
    ensures { Consumes (session_within count) reader.old reader.new result }
{
    let models = models(alloc, reader)?;
    let mappings = mappings(alloc, reader)?;
    let plan = plan(alloc, reader)?;
    let datasets = datasets(alloc, reader)?;
    let sections = sections(alloc, reader, count)?;
    let clients = clients(alloc, reader)?;
    Ok(RawSession {
        models,
        mappings,
        plan,
        datasets,
        sections,
        clients,
    })
}

/// The session, where no token is left behind it.
fn whole(reader: &Reader, raw: RawSession) -> Result<RawSession, Refusal>
    ensures { Implements reader.now result (whole_of raw reader.now) }
{
    if reader.left() == 0 {
        Ok(raw)
    } else {
        Err(Refusal::Syntax)
    }
}

/// Reads a session, behind which nothing stands. The tokens are those of the whole text.
pub fn whole_session(alloc: Global, reader: &mut Reader) -> Result<RawSession, Refusal>
    ensures { Consumes whole_session_at reader.old reader.new result }
{
    let count = reader.left();
    let raw = session_within(alloc, reader, count)?;
    whole(reader, raw)
}
