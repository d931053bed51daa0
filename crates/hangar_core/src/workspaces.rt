//! The workspace of one thread.

ghost use Rattle.std.specs.Prelude.{◌≡◌, ◌<◌, remove, None, Some, IfOk, IfSome, OnErr, slice_get, length};
ghost use Rattle.std.specs.List.{find};
ghost use Rattle.commands.specs.SessionModels.{AreModels, empty_plan as empty_plan_by};
ghost use Rattle.hangar_core.specs.Edits.{changed_by, IsMadeAt, IsRevisionOf};
ghost use Rattle.hangar_core.specs.Opening.{dropped_at, dropped_branch, forked, forked_at, IsForkOf, new_branch, refusal_to_open as refusal_by, opened_with};
ghost use Rattle.hangar_core.specs.ValidWorkspaces.{AllStayWith, AreRevisionsWithin, IsActionOn, IsBranchIn, IsChangeOn, IsWorkspace, MayChange, branch_names};
ghost use Rattle.hangar_core.specs.Steps.{step as step_of};
ghost use Rattle.hangar_core.specs.Workspaces.{branch_named, has_name, item_there};

use crate::actions::Action;
use crate::branches::Branch;
use crate::changes::{BranchChange, changed};
use crate::held_plans::HeldPlan;
use crate::last_revisions::LastRevisions;
use crate::replies::{Reply, share_run};
use aerie_base::{List, Model, Name, OutOfMemory, Plan, Shared, Time};
use plan_edit::Mapping;
use run_data::Kept;
use std::alloc::Global;

/// The most branches that stand at a time.
const MOST_BRANCHES: usize = 64;

/// Branches of plans.
#[derive(Drop)]
pub struct Workspace {
    /// The models of the session, of different names.
    pub models: List<Shared<Model>>,
    /// The mappings between them.
    pub mappings: List<Mapping>,
    /// How long each plan lasts.
    pub duration: Time,
    /// The branches, in the order in which they began.
    pub branches: List<Branch>,
    /// The last revision of each name that was dropped.
    pub dropped: LastRevisions,
}

impl Workspace {
    /// Why no branch with a name can begin.
    fn refusal_to_open(&self, name: &Name) -> Option<Reply>
        ensures { result ≡ refusal_by self.now name.now }
    {
        if position_of(self.branches.as_slice(), name).is_some() {
            return Some(Reply::BranchExists);
        }
        if self.branches.len() < MOST_BRANCHES {
            return None;
        }
        Some(Reply::TooManyBranches)
    }

    /// A branch begins, with a name that is free.
    fn add_branch(&mut self, branch: Branch) -> Result<Reply, OutOfMemory>
        requires workspace { IsWorkspace self.old }
        requires free { refusal_by self.old branch.name ≡ None }
        requires stands { IsBranchIn self.old.models self.old.duration branch }
        ensures made { IfOk result (λ reply. (reply, self.new) ≡ opened_with self.old branch) }
        ensures unchanged { OnErr result (self.new ≡ self.old) }
        ensures stands { IsWorkspace self.new }
    {
        let revision = branch.revision;
        self.branches.push(branch)?;
        Ok(Reply::Opened { revision })
    }

    /// Begins a branch with an empty plan of the first model.
    fn begin(&mut self, alloc: Global, name: Name) -> Result<Reply, OutOfMemory>
        requires workspace { IsWorkspace self.old }
        requires few { AreRevisionsWithin 9_223_372_036_854_775_807 self.old }
        ensures made { IfOk result (λ reply. (reply, self.new) ≡ new_branch self.old name) }
        ensures unchanged { OnErr result (self.new ≡ self.old) }
        ensures stands { IsWorkspace self.new }
    {
        if let Some(refusal) = self.refusal_to_open(&name) {
            return Ok(refusal);
        }
        let revision = self.dropped.first(&name);
        let plan = HeldPlan::of(alloc, empty_plan(alloc, self.duration))?;
        self.add_branch(Branch {
            name,
            revision,
            plan,
            kept: None,
        })
    }

    /// Begins a branch with the plan and the kept run of another.
    fn fork(&mut self, name: Name, source: &Name) -> Result<Reply, OutOfMemory>
        requires workspace { IsWorkspace self.old }
        requires few { AreRevisionsWithin 9_223_372_036_854_775_807 self.old }
        ensures made { IfOk result (λ reply. (reply, self.new) ≡ forked self.old name source.now) }
        ensures unchanged { OnErr result (self.new ≡ self.old) }
        ensures stands { IsWorkspace self.new }
    {
        match position_of(self.branches.as_slice(), source) {
            Some(at) => self.fork_from(at, name),
            None => Ok(Reply::NoBranch),
        }
    }

    /// Begins a branch with the plan and the kept run of the one at a position.
    fn fork_from(&mut self, at: usize, name: Name) -> Result<Reply, OutOfMemory>
        requires workspace { IsWorkspace self.old }
        requires few { AreRevisionsWithin 9_223_372_036_854_775_807 self.old }
        requires within { at < length self.old.branches }
        ensures made { IfOk result (λ reply. (reply, self.new) ≡ forked_at self.old name at) }
        ensures unchanged { OnErr result (self.new ≡ self.old) }
        ensures stands { IsWorkspace self.new }
    {
        if let Some(refusal) = self.refusal_to_open(&name) {
            return Ok(refusal);
        }
        let revision = self.dropped.first(&name);
        let branch = forked_branch(self.branches.as_slice(), at, name, revision)?;
        self.add_branch(branch)
    }

    /// Takes a branch away, and remembers its revision.
    fn drop_branch(&mut self, name: Name) -> Result<Reply, OutOfMemory>
        requires workspace { IsWorkspace self.old }
        ensures made { IfOk result (λ reply. (reply, self.new) ≡ dropped_branch self.old name) }
        ensures unchanged { OnErr result (self.new ≡ self.old) }
        ensures stands { IsWorkspace self.new }
    {
        match position_of(self.branches.as_slice(), &name) {
            Some(at) => self.drop_at(at, name),
            None => Ok(Reply::NoBranch),
        }
    }

    /// Takes the branch at a position away.
    fn drop_at(&mut self, at: usize, name: Name) -> Result<Reply, OutOfMemory>
        requires workspace { IsWorkspace self.old }
        requires found { slice_get self.old.branches at ≡ branch_named self.old name }
        requires within { at < length self.old.branches }
        ensures made { IfOk result (λ reply. (reply, self.new) ≡ dropped_at self.old name at) }
        ensures unchanged { OnErr result (self.new ≡ self.old) }
        ensures stands { IsWorkspace self.new }
    {
        let revision = revision_at(self.branches.as_slice(), at);
        self.dropped.remember(name, revision)?;
        take_out(&mut self.branches, at);
        Ok(Reply::Dropped)
    }

    /// Changes the branch with a name.
    fn on_branch(
        &mut self,
        alloc: Global,
        name: &Name,
        change: BranchChange,
    ) -> Result<Reply, OutOfMemory>
        requires workspace { IsWorkspace self.old }
        requires few { AreRevisionsWithin 9_223_372_036_854_775_807 self.old }
        requires change { IsChangeOn self.old.models self.old.duration change }
        ensures made { IfOk result (λ reply. (reply, self.new) ≡ changed_by self.old name.now change) }
        ensures unchanged { OnErr result (self.new ≡ self.old) }
        ensures stands { IsWorkspace self.new }
    {
        match position_of(self.branches.as_slice(), name) {
            Some(at) => changed_at(
                alloc,
                self.models.as_slice(),
                self.mappings.as_slice(),
                &mut self.branches,
                at,
                change,
            ),
            None => Ok(Reply::NoBranch),
        }
    }

    /// One step. After want of memory the workspace is as it was.
    #[tactic(auto, unfolding(crate::specs::Steps::step))]
    pub fn step(&mut self, alloc: Global, action: Action) -> Result<Reply, OutOfMemory>
        requires workspace { IsWorkspace self.old }
        requires few { AreRevisionsWithin 9_223_372_036_854_775_807 self.old }
        requires action { IsActionOn self.old action }
        ensures made { IfOk result (λ reply. (reply, self.new) ≡ step_of self.old action) }
        ensures unchanged { OnErr result (self.new ≡ self.old) }
        ensures stands { IsWorkspace self.new }
    {
        match action {
            Action::New { branch } => self.begin(alloc, branch),
            Action::Fork { branch, source } => self.fork(branch, &source),
            Action::Drop { branch } => self.drop_branch(branch),
            Action::Edit { branch, edit } => {
                self.on_branch(alloc, &branch, BranchChange::Edit(edit))
            }
            Action::Migrate { branch, model } => {
                self.on_branch(alloc, &branch, BranchChange::Migrate { model })
            }
            Action::Fetch { branch } => self.on_branch(alloc, &branch, BranchChange::Fetch),
            Action::Attach { branch, kept } => {
                self.on_branch(alloc, &branch, BranchChange::Attach { kept })
            }
            Action::Place { branch, seen, plan } => {
                self.on_branch(alloc, &branch, BranchChange::Place { seen, plan })
            }
        }
    }
}

/// The position of the branch with a name. It scans them all.
fn position_of(branches: &[Branch], name: &Name) -> Option<usize>
    ensures found { item_there branches.now result ≡ find (has_name name.now) branches.now }
    ensures within { IfSome result (λ at. at < length branches.now) }
{
    for at in 0..branches.len() {
        if branches[at].name == *name {
            return Some(at);
        }
    }
    None
}

/// The revision of the branch at a position.
fn revision_at(branches: &[Branch], at: usize) -> u64
    requires within { at < length branches.now }
    ensures { IsRevisionOf result (slice_get branches.now at) }
{
    branches[at].revision
}

/// Takes the branch at a position out.
fn take_out(branches: &mut List<Branch>, at: usize)
    requires within { at < length branches.old }
    ensures { branches.new ≡ remove branches.old at }
{
    branches.items.remove(at);
}

/// Changes the branch at a position, and answers what tells of it.
fn changed_at(
    alloc: Global,
    models: &[Shared<Model>],
    mappings: &[Mapping],
    branches: &mut List<Branch>,
    at: usize,
    change: BranchChange,
) -> Result<Reply, OutOfMemory>
    requires models { AreModels models.now mappings.now }
    requires within { at < length branches.old }
    requires plan { MayChange models.now (slice_get branches.old at) }
    ensures made { IfOk result (IsMadeAt models.now mappings.now change at branches.old branches.new) }
    ensures unchanged { OnErr result (branches.new ≡ branches.old) }
    ensures stays { AllStayWith models.now change branches.old branches.new }
    ensures names { branch_names branches.new ≡ branch_names branches.old }
{
    let branch = &mut branches.items[at];
    changed(alloc, models, mappings, branch, change)
}

/// A branch with the plan and the kept run of the one at a position.
fn forked_branch(
    branches: &[Branch],
    at: usize,
    name: Name,
    revision: u64,
) -> Result<Branch, OutOfMemory>
    requires within { at < length branches.now }
    ensures { IfOk result (λ branch. IsForkOf branch name revision (slice_get branches.now at)) }
{
    let source = &branches[at];
    let plan = source.plan.share()?;
    let kept = share_run(&source.kept)?;
    Ok(Branch {
        name,
        revision,
        plan: HeldPlan::of_shared(plan),
        kept,
    })
}

/// A plan of the first model with no directive.
fn empty_plan(alloc: Global, duration: Time) -> Plan
    ensures { result ≡ empty_plan_by duration }
{
    Plan {
        model: 0,
        duration,
        next_id: 1,
        directives: List::new(alloc),
    }
}
