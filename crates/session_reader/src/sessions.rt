//! What a session as it is written means.

ghost use Rattle.std.specs.Prelude.{◌≡◌, Ok, IfOk, None as Nothing};
ghost use Rattle.session_reader.specs.declared.session_error.SessionError.TheVariants.{Check};
ghost use Rattle.session_reader.specs.Answers.{IsMade, check_error, then_made_of};
ghost use Rattle.session_reader.specs.CheckedModels.{AreValid, models_answer};
ghost use Rattle.session_reader.specs.DatasetAnswers.{datasets_answer};
ghost use Rattle.session_reader.specs.FewClients.{HasFewClients};
ghost use Rattle.session_reader.specs.Sections.{section_of as section_of_by};
ghost use Rattle.session_reader.specs.Sessions.{all_sections as all_sections_by, MakesAllSections, MakesJudged, JudgesNames, model_part as model_part_by, model_parts as model_parts_by, session_made, session_planned, session_started, session_over as session_over_by, session_answer};
ghost use Rattle.session_reader.specs.Times.{starts_answer};
ghost use Rattle.session_reader.specs.WellFormed.{HasRangesOf, IsLimited, IsPlanOfFirst, IsSession, MayBeMade};

use crate::beginnings::models_of_plan;
use crate::causes::Cause;
use crate::clients::{clients, repeated_client};
use crate::dataset_names::note_datasets;
use crate::datasets::{NamedSeries, datasets};
use crate::mappings::note_mappings;
use crate::meant_mappings::mappings;
use crate::models::models;
use crate::names::note_all_repeated;
use crate::plans::plan;
use crate::sections::{SectionsByModel, TokenRange, sections_of};
use crate::session::{ModelPart, Session};
use crate::session_error::SessionError;
use crate::times::starts;
use aerie_base::{List, Model, OutOfMemory, Plan, Shared};
use diagnostics::Diagnostic;
use epoch_text::Start;
use model_check::CheckError;
use session_grammar::{RawSections, RawSession};
use std::alloc::Global;

/// The sections of each sort, by model.
#[derive(Drop)]
struct AllSections {
    constraints: SectionsByModel,
    goals: SectionsByModel,
    sequences: SectionsByModel,
}

/// Judges the sections, sort by sort, and gives them by model.
#[tactic(auto, using(diagnostics::specs::NotedInTurn::noted_appended))]
fn all_sections(
    alloc: Global,
    models: &[Shared<Model>],
    raw: &RawSections,
    found: &mut Option<Diagnostic<Cause>>,
) -> Result<AllSections, OutOfMemory>
    ensures { IfOk result (MakesAllSections models.now raw.now found.old found.new) }
{
    let constraints = sections_of(alloc, models, raw.constraints.as_slice(), found)?;
    let goals = sections_of(alloc, models, raw.goals.as_slice(), found)?;
    let sequences = sections_of(alloc, models, raw.sequences.as_slice(), found)?;
    Ok(AllSections {
        constraints,
        goals,
        sequences,
    })
}

/// Judges the names of models, mappings, datasets and sections, and gives the sections by model.
#[tactic(auto, using(diagnostics::specs::NotedInTurn::noted_appended))]
fn judge_names(
    alloc: Global,
    models: &[Shared<Model>],
    raw: &RawSession,
    found: &mut Option<Diagnostic<Cause>>,
) -> Result<AllSections, OutOfMemory>
    ensures { IfOk result (JudgesNames models.now raw.now found.old found.new) }
{
    note_all_repeated(alloc, raw.models.as_slice(), found)?;
    note_mappings(alloc, models, raw.mappings.as_slice(), found)?;
    note_datasets(alloc, models, raw.datasets.as_slice(), found)?;
    all_sections(alloc, models, &raw.sections, found)
}

/// The models of a session, and their sections.
#[derive(Drop)]
struct Judged {
    models: List<Shared<Model>>,
    sections: AllSections,
}

/// Judges the beginnings of the plan section and the names of the session, and gives its models with their sections.
#[tactic(auto, using(diagnostics::specs::NotedInTurn::noted_appended))]
fn judge(
    alloc: Global,
    written: List<Shared<Model>>,
    raw: &RawSession,
    found: &mut Option<Diagnostic<Cause>>,
) -> Result<Judged, OutOfMemory>
    requires limits { IsLimited raw.now }
    requires valid { AreValid written }
    requires nothing { found.old ≡ Nothing }
    ensures { IfOk result (MakesJudged written raw.now found.new) }
{
    let beginnings = raw.plan.beginnings.as_slice();
    let models = models_of_plan(alloc, written, beginnings, found)?;
    let sections = judge_names(alloc, models.as_slice(), raw, found)?;
    Ok(Judged { models, sections })
}

/// The error that tells what was found.
fn refusal(diagnostic: Diagnostic<Cause>) -> SessionError
    ensures { result ≡ Check (check_error diagnostic.cause diagnostic.place) }
{
    let place = diagnostic.place;
    SessionError::Check(match diagnostic.cause {
        Cause::Unknown => CheckError::Unknown(place),
        Cause::Duplicate => CheckError::Duplicate(place),
        Cause::WrongType => CheckError::WrongType(place),
        Cause::OutOfRange => CheckError::OutOfRange(place),
    })
}

/// The section of a model, where it has one.
fn section_of(sections: &SectionsByModel, model: usize) -> Option<TokenRange>
    ensures { result ≡ section_of_by sections.now model }
{
    match sections.as_slice().get(model) {
        Some(section) => *section,
        None => None,
    }
}

/// A model with its sections.
fn model_part(
    sections: &AllSections,
    number: usize,
    model: &Shared<Model>,
) -> Result<ModelPart, OutOfMemory>
    ensures { IfOk result (λ part. part ≡ model_part_by sections.now number model.now) }
{
    Ok(ModelPart {
        model: model.share()?,
        constraints: section_of(&sections.constraints, number),
        goals: section_of(&sections.goals, number),
        sequence: section_of(&sections.sequences, number),
    })
}

/// The models with their sections.
fn model_parts(
    alloc: Global,
    sections: &AllSections,
    models: &[Shared<Model>],
) -> Result<List<ModelPart>, OutOfMemory>
    ensures { IfOk result (λ parts. parts ≡ model_parts_by sections.now 0 models.now) }
{
    let mut parts = List::with_capacity(alloc, models.len())?;
    for number in 0..models.len() {
        parts.push(model_part(sections, number, &models[number])?)?;
    }
    Ok(parts)
}

/// The session of these parts.
fn assembled(
    alloc: Global,
    models: &[Shared<Model>],
    sections: &AllSections,
    raw: &RawSession,
    start: Start,
    plan: Plan,
    datasets: List<NamedSeries>,
) -> Result<Session, OutOfMemory>
    requires sections { sections.now ≡ all_sections_by models.now raw.now.sections }
    ensures { IfOk result (λ session. session ≡ session_made models.now raw.now start plan datasets) }
{
    let parts = model_parts(alloc, sections, models)?;
    let mappings = mappings(alloc, models, raw.mappings.as_slice())?;
    let branch = raw.plan.branch.name.copy(alloc)?;
    let clients = clients(alloc, start, raw.clients.as_slice())?;
    Ok(Session {
        models: parts,
        mappings,
        start,
        branch,
        plan,
        datasets,
        clients,
    })
}

/// The session with a start and a plan: its datasets are read.
fn made(
    alloc: Global,
    models: &[Shared<Model>],
    sections: &AllSections,
    raw: &RawSession,
    start: Start,
    plan: Plan,
) -> Result<Session, SessionError>
    requires sections { sections.now ≡ all_sections_by models.now raw.now.sections }
    requires good { MayBeMade models.now raw.now }
    requires plan { IsPlanOfFirst models.now plan }
    ensures made { IsMade (then_made_of (λ datasets. Ok (session_made models.now raw.now start plan datasets)) (datasets_answer 0 raw.now.datasets)) result }
    ensures session { IfOk result IsSession }
    ensures ranges { IfOk result (HasRangesOf raw.now) }
{
    let datasets = datasets(alloc, raw.datasets.as_slice())?;
    Ok(assembled(alloc, models, sections, raw, start, plan, datasets)?)
}

/// The session with a start and a plan, where its clients have different names.
fn planned(
    alloc: Global,
    models: &[Shared<Model>],
    sections: &AllSections,
    raw: &RawSession,
    start: Start,
    plan: Plan,
) -> Result<Session, SessionError>
    requires sections { sections.now ≡ all_sections_by models.now raw.now.sections }
    requires good { MayBeMade models.now raw.now }
    requires plan { IsPlanOfFirst models.now plan }
    ensures made { IsMade (session_planned models.now raw.now start plan) result }
    ensures session { IfOk result IsSession }
    ensures ranges { IfOk result (HasRangesOf raw.now) }
{
    match repeated_client(raw.clients.as_slice()) {
        Some(place) => Err(SessionError::Client(place)),
        None => made(alloc, models, sections, raw, start, plan),
    }
}

/// The session with a start: the plan section's directives are added.
fn started(
    alloc: Global,
    models: &[Shared<Model>],
    sections: &AllSections,
    raw: &RawSession,
    start: Start,
) -> Result<Session, SessionError>
    requires sections { sections.now ≡ all_sections_by models.now raw.now.sections }
    requires good { MayBeMade models.now raw.now }
    ensures made { IsMade (session_started models.now raw.now start) result }
    ensures session { IfOk result IsSession }
    ensures ranges { IfOk result (HasRangesOf raw.now) }
{
    let plan = plan(alloc, start, models, &raw.plan)?;
    planned(alloc, models, sections, raw, start, plan)
}

/// The session, where nothing is refused of its models and names.
fn named(
    alloc: Global,
    models: &[Shared<Model>],
    sections: &AllSections,
    raw: &RawSession,
) -> Result<Session, SessionError>
    requires sections { sections.now ≡ all_sections_by models.now raw.now.sections }
    requires good { MayBeMade models.now raw.now }
    ensures made { IsMade (then_made_of (session_started models.now raw.now) (starts_answer raw.now)) result }
    ensures session { IfOk result IsSession }
    ensures ranges { IfOk result (HasRangesOf raw.now) }
{
    let start = starts(raw)?;
    started(alloc, models, sections, raw, start)
}

/// The session of these models as they are written.
fn session_over(
    alloc: Global,
    written: List<Shared<Model>>,
    raw: &RawSession,
) -> Result<Session, SessionError>
    requires limits { IsLimited raw.now }
    requires checked { models_answer raw.now.models ≡ Ok written }
    requires valid { AreValid written }
    ensures made { IsMade (session_over_by raw.now written) result }
    ensures session { IfOk result IsSession }
    ensures ranges { IfOk result (HasRangesOf raw.now) }
{
    let mut found = None;
    let judged = judge(alloc, written, raw, &mut found)?;
    match found {
        Some(diagnostic) => Err(refusal(diagnostic)),
        None => named(alloc, judged.models.as_slice(), &judged.sections, raw),
    }
}

/// What a session as it is written means, or the first refusal of what its form leaves open.
pub(crate) fn session(alloc: Global, raw: &RawSession) -> Result<Session, SessionError>
    requires limits { IsLimited raw.now }
    ensures exact { IsMade (session_answer raw.now) result }
    ensures session { IfOk result IsSession }
    ensures few { IfOk result HasFewClients }
    ensures ranges { IfOk result (HasRangesOf raw.now) }
{
    let models = models(alloc, raw.models.as_slice())?;
    session_over(alloc, models, raw)
}
