//! What clients ask for.

ghost use Rattle.std.specs.Prelude.{◌≡◌, IfOk};
ghost use Rattle.commands.specs.Branches.{branch_of};
ghost use Rattle.commands.specs.declared.commands.Command.TheVariants as command;

use crate::edits::Edit;
use aerie_base::{Name, OutOfMemory};
use std::alloc::Global;

/// What a client asks for: one action, or several one after another.
#[derive(Drop)]
pub enum Command {
    /// Begins a branch with an empty plan of the first model.
    New {
        /// The new branch.
        branch: Name,
    },
    /// Begins a branch with the plan and the kept run of another.
    Fork {
        /// The new branch.
        branch: Name,
        /// The other one.
        source: Name,
    },
    /// Takes a branch away.
    Drop {
        /// The branch.
        branch: Name,
    },
    /// Edits the plan.
    Edit {
        /// The branch.
        branch: Name,
        /// What is done to its plan.
        edit: Edit,
    },
    /// Takes the plan to another model.
    Migrate {
        /// The branch.
        branch: Name,
        /// The name of the other model.
        model: Name,
    },
    /// Prints the plan.
    Show {
        /// The branch.
        branch: Name,
    },
    /// Simulates the plan and keeps the run.
    Simulate {
        /// The branch.
        branch: Name,
    },
    /// Adds directives to the plan until the goals are met.
    Schedule {
        /// The branch.
        branch: Name,
    },
    /// Merges the plan of one branch into that of another.
    Merge {
        /// The branch whose plan becomes the merged one.
        target: Name,
        /// The branch whose changes are taken over.
        source: Name,
        /// The branch that both were forked from.
        base: Name,
    },
    /// Turns the spans of a simulation into commands for the spacecraft.
    Expand {
        /// The branch.
        branch: Name,
    },
}

impl Command {
    /// The command to fork a branch from another, with copies of the names.
    pub fn fork(alloc: Global, branch: &Name, source: &Name) -> Result<Command, OutOfMemory>
        ensures { IfOk result (λ made. made ≡ command.Fork branch.now source.now) }
    {
        let branch = branch.copy(alloc)?;
        let source = source.copy(alloc)?;
        Ok(Command::Fork { branch, source })
    }

    /// The command to move a branch to another model, with copies of the names.
    pub fn migrate(alloc: Global, branch: &Name, model: &Name) -> Result<Command, OutOfMemory>
        ensures { IfOk result (λ made. made ≡ command.Migrate branch.now model.now) }
    {
        let branch = branch.copy(alloc)?;
        let model = model.copy(alloc)?;
        Ok(Command::Migrate { branch, model })
    }

    /// The command to merge the plans of branches, with copies of the names.
    pub fn merge(
        alloc: Global,
        target: &Name,
        source: &Name,
        base: &Name,
    ) -> Result<Command, OutOfMemory>
        ensures { IfOk result (λ made. made ≡ command.Merge target.now source.now base.now) }
    {
        let target = target.copy(alloc)?;
        let source = source.copy(alloc)?;
        let base = base.copy(alloc)?;
        Ok(Command::Merge {
            target,
            source,
            base,
        })
    }

    /// The branch that the command names first.
    pub fn branch(&self) -> &Name
        ensures { result.now ≡ branch_of self.now }
    {
        match self {
            Command::New { branch }
            | Command::Fork { branch, .. }
            | Command::Drop { branch }
            | Command::Edit { branch, .. }
            | Command::Migrate { branch, .. }
            | Command::Show { branch }
            | Command::Simulate { branch }
            | Command::Schedule { branch }
            | Command::Expand { branch } => branch,
            Command::Merge { target, .. } => target,
        }
    }

    /// An equal command.
    pub fn copy(&self, alloc: Global) -> Result<Command, OutOfMemory>
        ensures { IfOk result (λ copy. copy ≡ self.now) }
    {
        let branch = self.branch().copy(alloc)?;
        match self {
            Command::New { .. } => Ok(Command::New { branch }),
            Command::Fork { source, .. } => Ok(Command::Fork {
                branch,
                source: source.copy(alloc)?,
            }),
            Command::Drop { .. } => Ok(Command::Drop { branch }),
            Command::Edit { edit, .. } => Ok(Command::Edit {
                branch,
                edit: edit.copy(alloc)?,
            }),
            Command::Migrate { model, .. } => Ok(Command::Migrate {
                branch,
                model: model.copy(alloc)?,
            }),
            Command::Show { .. } => Ok(Command::Show { branch }),
            Command::Simulate { .. } => Ok(Command::Simulate { branch }),
            Command::Schedule { .. } => Ok(Command::Schedule { branch }),
            Command::Merge { source, base, .. } => Ok(Command::Merge {
                target: branch,
                source: source.copy(alloc)?,
                base: base.copy(alloc)?,
            }),
            Command::Expand { .. } => Ok(Command::Expand { branch }),
        }
    }
}
