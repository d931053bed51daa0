//! What the clients of a session work on.

ghost use Rattle.std.specs.Prelude.{◌≡◌, ◌<◌, IfOk, length, map};
ghost use Rattle.session_reader.specs.WellFormed.{IsSession};
ghost use Rattle.session_run.specs.Missions.{mission_of, opening_of, ruled_part, ruled_parts};
ghost use Rattle.session_run.specs.Ruled.{HasAllRules};

use aerie_base::{List, Model, OutOfMemory, Shared};
use client_work::{Mission, ReportForm, RuledModel};
use hangar_core::Hangar;
use plan_edit::{Mapping, copy_plan};
use session_judge::JudgedSession;
use session_reader::{ModelPart, Session};
use std::alloc::Global;

/// A model with the rules that stand at its number.
#[tactic(auto, using(crate::proofs::Rules::constraints_many, crate::proofs::Rules::goals_many, crate::proofs::Rules::sequences_many))]
fn ruled_model(
    judged: &JudgedSession,
    number: usize,
    part: &ModelPart,
) -> Result<RuledModel, OutOfMemory>
    requires rules { HasAllRules judged.now }
    requires within { number < length judged.now.session.models }
    ensures { IfOk result (λ ruled. ruled ≡ ruled_part judged.now number part.now) }
{
    Ok(RuledModel {
        model: part.model.share()?,
        constraints: judged.constraints.as_slice()[number].share()?,
        goals: judged.goals.as_slice()[number].share()?,
        sequence: judged.sequences.as_slice()[number].share()?,
    })
}

/// All models with their rules.
fn ruled_models(alloc: Global, judged: &JudgedSession) -> Result<List<RuledModel>, OutOfMemory>
    requires rules { HasAllRules judged.now }
    ensures { IfOk result (λ models. models ≡ ruled_parts judged.now 0 judged.now.session.models) }
{
    let mut models = List::with_capacity(alloc, judged.session.models.len())?;
    let parts = judged.session.models.as_slice();
    for number in 0..parts.len() {
        models.push(ruled_model(judged, number, &parts[number])?)?;
    }
    Ok(models)
}

/// What the clients work on.
pub(crate) fn mission(
    alloc: Global,
    judged: &JudgedSession,
    bound: u64,
    form: ReportForm,
) -> Result<Mission, OutOfMemory>
    requires rules { HasAllRules judged.now }
    ensures { IfOk result (λ mission. mission ≡ mission_of judged.now bound form) }
{
    Ok(Mission {
        models: ruled_models(alloc, judged)?,
        start: judged.session.start,
        bound,
        form,
    })
}

/// The models of a session.
fn shared_models(alloc: Global, parts: &[ModelPart]) -> Result<List<Shared<Model>>, OutOfMemory>
    ensures { IfOk result (λ models. models ≡ map (λ part. part.model) parts.now) }
{
    let mut models = List::with_capacity(alloc, parts.len())?;
    for part in parts {
        models.push(part.model.share()?)?;
    }
    Ok(models)
}

/// Equal mappings.
fn copy_mappings(alloc: Global, mappings: &[Mapping]) -> Result<List<Mapping>, OutOfMemory>
    ensures { IfOk result (λ copies. copies ≡ mappings.now) }
{
    let mut copies = List::with_capacity(alloc, mappings.len())?;
    for mapping in mappings {
        copies.push(mapping.copy(alloc)?)?;
    }
    Ok(copies)
}

/// The workspace with which the session begins.
pub(crate) fn hangar(alloc: Global, session: &Session) -> Result<Hangar, OutOfMemory>
    requires session { IsSession session.now }
    ensures workspace { IfOk result (λ hangar. hangar.workspace ≡ opening_of session.now) }
    ensures fresh { IfOk result (λ hangar. hangar.accepted ≡ 0) }
{
    let models = shared_models(alloc, session.models.as_slice())?;
    let mappings = copy_mappings(alloc, session.mappings.as_slice())?;
    let branch = session.branch.copy(alloc)?;
    let plan = copy_plan(alloc, &session.plan)?;
    Hangar::new(alloc, models, mappings, branch, plan)
}
