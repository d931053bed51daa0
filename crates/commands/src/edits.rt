//! The edits of a plan.

ghost use Rattle.std.specs.Prelude.{◌≡◌, IfOk};
ghost use Rattle.commands.specs.declared.edits.Edit.TheVariants as edit;

use crate::arguments::copy_arguments;
use aerie_base::{List, Name, OutOfMemory, RawArgument, RawValue, Text, When};
use std::alloc::Global;

/// An edit of a plan.
#[derive(Drop)]
pub enum Edit {
    /// Adds a directive.
    Add {
        /// When the directive starts.
        at: When,
        /// The name of its activity type.
        kind: Name,
        /// Its arguments as they are written.
        arguments: List<RawArgument>,
    },
    /// Takes a directive away.
    Remove {
        /// The directive's id.
        id: u32,
    },
    /// Moves a directive to another start.
    Move {
        /// The directive's id.
        id: u32,
        /// When it starts then.
        at: When,
    },
    /// Gives a directive another argument.
    Set {
        /// The directive's id.
        id: u32,
        /// The parameter.
        parameter: Name,
        /// Its value as it is written.
        value: RawValue,
    },
    /// Puts the directives of a plan in JSON in the place of all that are there.
    Load {
        /// The plan as JSON.
        text: Text,
    },
}

impl Edit {
    /// The addition of a directive, with copies of what is given.
    pub fn add(
        alloc: Global,
        at: When,
        kind: &Name,
        arguments: &[RawArgument],
    ) -> Result<Edit, OutOfMemory>
        ensures { IfOk result (λ made. made ≡ edit.Add at kind.now arguments.now) }
    {
        let kind = kind.copy(alloc)?;
        let arguments = copy_arguments(alloc, arguments)?;
        Ok(Edit::Add {
            at,
            kind,
            arguments,
        })
    }

    /// The change of an argument, with copies of what is given.
    pub fn set(
        alloc: Global,
        id: u32,
        parameter: &Name,
        value: &RawValue,
    ) -> Result<Edit, OutOfMemory>
        ensures { IfOk result (λ made. made ≡ edit.Set id parameter.now value.now) }
    {
        let parameter = parameter.copy(alloc)?;
        let value = value.copy(alloc)?;
        Ok(Edit::Set {
            id,
            parameter,
            value,
        })
    }

    /// An equal edit.
    pub fn copy(&self, alloc: Global) -> Result<Edit, OutOfMemory>
        ensures { IfOk result (λ copy. copy ≡ self.now) }
    {
        match self {
            Edit::Add {
                at,
                kind,
                arguments,
            } => Edit::add(alloc, *at, kind, arguments.as_slice()),
            Edit::Remove { id } => Ok(Edit::Remove { id: *id }),
            Edit::Move { id, at } => Ok(Edit::Move { id: *id, at: *at }),
            Edit::Set {
                id,
                parameter,
                value,
            } => Edit::set(alloc, *id, parameter, value),
            Edit::Load { text } => Ok(Edit::Load {
                text: text.copy(alloc)?,
            }),
        }
    }
}
