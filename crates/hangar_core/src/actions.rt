//! What is done to a workspace.

ghost use Rattle.std.specs.Prelude.{◌≡◌, IfOk};
ghost use Rattle.hangar_core.specs.Commands.{first_action};
ghost use Rattle.hangar_core.specs.declared.actions.Action.TheVariants as action;

use aerie_base::{Name, OutOfMemory, Plan, Shared};
use commands::{Command, Edit};
use run_data::Kept;
use std::alloc::Global;

/// One step on a workspace.
#[derive(Drop)]
pub enum Action {
    /// Begins a branch with an empty plan of the first model.
    New {
        /// The new branch.
        branch: Name,
    },
    /// Begins a branch with the plan and the kept run of another.
    Fork {
        /// The new branch.
        branch: Name,
        /// The other one.
        source: Name,
    },
    /// Takes a branch away.
    Drop {
        /// The branch.
        branch: Name,
    },
    /// Edits the plan.
    Edit {
        /// The branch.
        branch: Name,
        /// What is done to its plan.
        edit: Edit,
    },
    /// Takes the plan to another model.
    Migrate {
        /// The branch.
        branch: Name,
        /// The name of the other model.
        model: Name,
    },
    /// Reads a branch.
    Fetch {
        /// The branch.
        branch: Name,
    },
    /// Keeps a run on a branch, whatever its revision now.
    Attach {
        /// The branch.
        branch: Name,
        /// The run.
        kept: Shared<Kept>,
    },
    /// Puts a plan in the place of the one that was fetched.
    Place {
        /// The branch.
        branch: Name,
        /// The revision that was fetched.
        seen: u64,
        /// The plan.
        plan: Plan,
    },
}

impl Action {
    /// The action with which a command begins. All others follow from the replies.
    pub fn first(alloc: Global, command: &Command) -> Result<Action, OutOfMemory>
        ensures { IfOk result (λ action. action ≡ first_action command.now) }
    {
        let branch = command.branch().copy(alloc)?;
        match command {
            Command::New { .. } => Ok(Action::New { branch }),
            Command::Fork { source, .. } => Ok(Action::Fork {
                branch,
                source: source.copy(alloc)?,
            }),
            Command::Drop { .. } => Ok(Action::Drop { branch }),
            Command::Edit { edit, .. } => Ok(Action::Edit {
                branch,
                edit: edit.copy(alloc)?,
            }),
            Command::Migrate { model, .. } => Ok(Action::Migrate {
                branch,
                model: model.copy(alloc)?,
            }),
            Command::Show { .. }
            | Command::Simulate { .. }
            | Command::Schedule { .. }
            | Command::Merge { .. }
            | Command::Expand { .. } => Ok(Action::Fetch { branch }),
        }
    }

    /// An equal action. A run that it keeps is not copied: the copy is one more owner of it.
    pub fn copy(&self, alloc: Global) -> Result<Action, OutOfMemory>
        ensures { IfOk result (λ copy. copy ≡ self.now) }
    {
        match self {
            Action::New { branch } => Ok(Action::New {
                branch: branch.copy(alloc)?,
            }),
            Action::Fork { branch, source } => fork(alloc, branch, source),
            Action::Drop { branch } => Ok(Action::Drop {
                branch: branch.copy(alloc)?,
            }),
            Action::Edit { branch, edit } => edited(alloc, branch, edit),
            Action::Migrate { branch, model } => migrate(alloc, branch, model),
            Action::Fetch { branch } => fetch(alloc, branch),
            Action::Attach { branch, kept } => attach(alloc, branch, kept),
            Action::Place { branch, seen, plan } => place(alloc, branch, *seen, plan),
        }
    }
}

/// The fork of a branch from another.
fn fork(alloc: Global, branch: &Name, source: &Name) -> Result<Action, OutOfMemory>
    ensures { IfOk result (λ made. made ≡ action.Fork branch.now source.now) }
{
    let branch = branch.copy(alloc)?;
    let source = source.copy(alloc)?;
    Ok(Action::Fork { branch, source })
}

/// The edit of the plan of a branch.
fn edited(alloc: Global, branch: &Name, edit: &Edit) -> Result<Action, OutOfMemory>
    ensures { IfOk result (λ made. made ≡ action.Edit branch.now edit.now) }
{
    let branch = branch.copy(alloc)?;
    let edit = edit.copy(alloc)?;
    Ok(Action::Edit { branch, edit })
}

/// The move of a branch to another model.
fn migrate(alloc: Global, branch: &Name, model: &Name) -> Result<Action, OutOfMemory>
    ensures { IfOk result (λ made. made ≡ action.Migrate branch.now model.now) }
{
    let branch = branch.copy(alloc)?;
    let model = model.copy(alloc)?;
    Ok(Action::Migrate { branch, model })
}

/// The reading of a branch.
fn fetch(alloc: Global, branch: &Name) -> Result<Action, OutOfMemory>
    ensures { IfOk result (λ made. made ≡ action.Fetch branch.now) }
{
    let branch = branch.copy(alloc)?;
    Ok(Action::Fetch { branch })
}

/// The keeping of a run.
fn attach(alloc: Global, branch: &Name, kept: &Shared<Kept>) -> Result<Action, OutOfMemory>
    ensures { IfOk result (λ made. made ≡ action.Attach branch.now kept.now) }
{
    let branch = branch.copy(alloc)?;
    let kept = kept.share()?;
    Ok(Action::Attach { branch, kept })
}

/// The placing of a plan.
fn place(alloc: Global, branch: &Name, seen: u64, plan: &Plan) -> Result<Action, OutOfMemory>
    ensures { IfOk result (λ made. made ≡ action.Place branch.now seen plan.now) }
{
    let branch = branch.copy(alloc)?;
    let plan = plan.copy(alloc)?;
    Ok(Action::Place { branch, seen, plan })
}
