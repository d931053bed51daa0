//! What becomes of a branch by an action on it.

ghost use Rattle.std.specs.Prelude.{◌≡◌, ◌<◌, ◌^◌, IfOk, IfSome, OnErr, slice_get, length};
ghost use Rattle.commands.specs.SessionModels.{AreModels, IsMappingIn, IsPlanAmong};
ghost use Rattle.hangar_core.specs.Changing.{attached as attached_by, fetched as fetched_by, IsMadeBy, is_named as is_named_by, mapping_to as mapping_to_by, migrated_branch as moved_to, migrated_through, placed_branch as placed_by};
ghost use Rattle.hangar_core.specs.Edits.{change_of, edited_as, IsToldRefusal};
ghost use Rattle.hangar_core.specs.ValidWorkspaces.{StaysIn, StaysWith};
ghost use Rattle.hangar_core.specs.Workspaces.{item_there};

use crate::branches::Branch;
use crate::held_plans::HeldPlan;
use crate::replies::{Reply, share_run};
use aerie_base::{Model, Name, OutOfMemory, Plan, Shared};
use commands::Edit;
use plan_edit::{EditError, Mapping, MigrateError};
use run_data::Kept;
use std::alloc::Global;

/// An action on a branch, without the branch's name.
#[derive(Drop)]
pub enum BranchChange {
    /// An edit of its plan.
    Edit(Edit),
    /// Its plan is taken to the model with a name.
    Migrate {
        /// The model.
        model: Name,
    },
    /// It is read.
    Fetch,
    /// A run is kept on it.
    Attach {
        /// The run.
        kept: Shared<Kept>,
    },
    /// It gets another plan.
    Place {
        /// The revision that was fetched.
        seen: u64,
        /// The plan.
        plan: Plan,
    },
}

/// Changes a branch, and answers what tells of it.
pub fn changed(
    alloc: Global,
    models: &[Shared<Model>],
    mappings: &[Mapping],
    branch: &mut Branch,
    change: BranchChange,
) -> Result<Reply, OutOfMemory>
    requires models { AreModels models.now mappings.now }
    requires plan { IsPlanAmong models.now branch.old.plan }
    requires few { branch.old.revision < 2 ^ 63 }
    ensures made { IfOk result (IsMadeBy (change_of models.now mappings.now change) branch.old branch.new) }
    ensures unchanged { OnErr result (branch.new ≡ branch.old) }
    ensures stays { StaysWith models.now change branch.old branch.new }
    ensures name { branch.new.name ≡ branch.old.name }
{
    match change {
        BranchChange::Edit(edit) => edited(alloc, models, branch, &edit),
        BranchChange::Migrate { model } => migrated(alloc, models, mappings, branch, &model),
        BranchChange::Fetch => fetched(branch),
        BranchChange::Attach { kept } => Ok(attached(branch, kept)),
        BranchChange::Place { seen, plan } => placed(alloc, branch, seen, plan),
    }
}

/// Edits the plan of a branch by its model.
fn edited(
    alloc: Global,
    models: &[Shared<Model>],
    branch: &mut Branch,
    edit: &Edit,
) -> Result<Reply, OutOfMemory>
    requires plan { IsPlanAmong models.now branch.old.plan }
    requires few { branch.old.revision < 2 ^ 63 }
    ensures made { IfOk result (IsMadeBy (edited_as models.now edit.now) branch.old branch.new) }
    ensures unchanged { OnErr result (branch.new ≡ branch.old) }
    ensures stays { StaysIn models.now branch.old branch.new }
    ensures name { branch.new.name ≡ branch.old.name }
{
    let model = &models[usize::from(branch.plan.get().model)];
    let revision = branch.revision + 1;
    match branch.plan.edit(alloc, model.get(), edit, revision) {
        Ok(reply) => {
            branch.revision = revision;
            Ok(reply)
        }
        Err(refusal) => refused(refusal),
    }
}

/// What tells that an edit is refused, or that memory was wanted.
fn refused(refusal: EditError) -> Result<Reply, OutOfMemory>
    ensures { IsToldRefusal refusal result }
{
    match refusal {
        EditError::OutOfMemory => Err(OutOfMemory),
        _ => Ok(Reply::Edit(refusal)),
    }
}

/// The position of the first mapping from the model at a position to one with a name.
fn mapping_to(
    models: &[Shared<Model>],
    mappings: &[Mapping],
    from: u16,
    name: &Name,
) -> Option<usize>
    ensures found { item_there mappings.now result ≡ mapping_to_by models.now mappings.now from name.now }
    ensures within { IfSome result (λ place. place < length mappings.now) }
{
    for place in 0..mappings.len() {
        let mapping = &mappings[place];
        if mapping.from == from && is_named(models, mapping.to, name) {
            return Some(place);
        }
    }
    None
}

/// Whether the model at a position has a name.
fn is_named(models: &[Shared<Model>], place: u16, name: &Name) -> bool
    ensures { result ≡ is_named_by (slice_get models.now place) name.now }
{
    match models.get(usize::from(place)) {
        Some(model) => *model.get().name() == *name,
        None => false,
    }
}

/// Takes the plan of a branch to the model with a name.
fn migrated(
    alloc: Global,
    models: &[Shared<Model>],
    mappings: &[Mapping],
    branch: &mut Branch,
    name: &Name,
) -> Result<Reply, OutOfMemory>
    requires models { AreModels models.now mappings.now }
    requires plan { IsPlanAmong models.now branch.old.plan }
    requires few { branch.old.revision < 2 ^ 63 }
    ensures made { IfOk result (IsMadeBy (moved_to models.now mappings.now name.now) branch.old branch.new) }
    ensures unchanged { OnErr result (branch.new ≡ branch.old) }
    ensures stays { StaysIn models.now branch.old branch.new }
    ensures name { branch.new.name ≡ branch.old.name }
{
    match mapping_to(models, mappings, branch.plan.get().model, name) {
        Some(place) => migrated_by(alloc, models, &mappings[place], branch),
        None => Ok(Reply::NoMapping),
    }
}

/// Takes the plan of a branch to another model.
fn migrated_by(
    alloc: Global,
    models: &[Shared<Model>],
    mapping: &Mapping,
    branch: &mut Branch,
) -> Result<Reply, OutOfMemory>
    requires mapping { IsMappingIn models.now mapping.now }
    requires from { mapping.now.from ≡ branch.old.plan.model }
    requires plan { IsPlanAmong models.now branch.old.plan }
    requires few { branch.old.revision < 2 ^ 63 }
    ensures made { IfOk result (IsMadeBy (migrated_through models.now mapping.now) branch.old branch.new) }
    ensures unchanged { OnErr result (branch.new ≡ branch.old) }
    ensures stays { StaysIn models.now branch.old branch.new }
    ensures name { branch.new.name ≡ branch.old.name }
{
    let old = &models[usize::from(mapping.from)];
    let new = &models[usize::from(mapping.to)];
    match branch.plan.migrate(alloc, old.get(), new.get(), mapping) {
        Ok(()) => {
            branch.revision += 1;
            Ok(Reply::Edited {
                revision: branch.revision,
            })
        }
        Err(MigrateError::Unmapped { id }) => Ok(Reply::Unmapped { id }),
        Err(MigrateError::Misfit { id, number }) => Ok(Reply::Misfit { id, number }),
        Err(MigrateError::OutOfMemory) => Err(OutOfMemory),
    }
}

/// Reads a branch.
fn fetched(branch: &Branch) -> Result<Reply, OutOfMemory>
    ensures { IfOk result (λ reply. (reply, branch.now) ≡ fetched_by branch.now) }
{
    let plan = branch.plan.share()?;
    let kept = share_run(&branch.kept)?;
    Ok(Reply::Fetched {
        revision: branch.revision,
        plan,
        kept,
    })
}

/// Keeps a run on a branch.
fn attached(branch: &mut Branch, kept: Shared<Kept>) -> Reply
    ensures { (result, branch.new) ≡ attached_by kept branch.old }
{
    branch.kept = Some(kept);
    Reply::Attached
}

/// Gives a branch another plan, where its revision is the one that was fetched.
fn placed(alloc: Global, branch: &mut Branch, seen: u64, plan: Plan) -> Result<Reply, OutOfMemory>
    requires few { branch.old.revision < 2 ^ 63 }
    ensures made { IfOk result (λ reply. (reply, branch.new) ≡ placed_by seen plan branch.old) }
    ensures unchanged { OnErr result (branch.new ≡ branch.old) }
{
    if branch.revision != seen {
        return Ok(Reply::Stale {
            seen,
            now: branch.revision,
        });
    }
    branch.plan = HeldPlan::of(alloc, plan)?;
    branch.revision += 1;
    Ok(Reply::Placed {
        revision: branch.revision,
    })
}
