//! Clients as they are written.

use crate::raw::starts::RawWhen;
use aerie_base::{List, Name, Place, RawArgument, RawValue, Text};

/// An activity with arguments, as a directive gives it.
#[derive(Drop)]
pub struct RawGiven {
    /// The name of the activity type.
    pub kind: Name,
    /// The arguments in the order of the text.
    pub arguments: List<RawArgument>,
}

/// A command. `branch` is the branch that it names first.
#[derive(Drop)]
pub enum RawCommand {
    /// Opens an empty branch.
    New {
        branch: Name,
    },
    /// Opens a branch as another one stands.
    Fork {
        branch: Name,
        source: Name,
    },
    /// Ends a branch.
    Drop {
        branch: Name,
    },
    /// Adds a directive.
    Add {
        branch: Name,
        at: RawWhen,
        given: RawGiven,
    },
    /// Removes a directive.
    Remove {
        branch: Name,
        id: u32,
    },
    /// Moves a directive.
    Move {
        branch: Name,
        id: u32,
        at: RawWhen,
    },
    /// Gives an argument of a directive another value.
    Set {
        branch: Name,
        id: u32,
        argument: RawArgument,
    },
    /// Adds directives that are written as JSON: the text with its backquotes.
    Load {
        branch: Name,
        text: Text,
    },
    /// Moves a branch to another model.
    Migrate {
        branch: Name,
        model: Name,
    },
    /// Shows the plan of a branch.
    Show {
        branch: Name,
    },
    /// Simulates the plan of a branch.
    Simulate {
        branch: Name,
    },
    /// Places directives for the goals.
    Schedule {
        branch: Name,
    },
    /// Merges into a branch what another one changed since a third.
    Merge {
        branch: Name,
        source: Name,
        base: Name,
    },
    /// Gives the commands that the spans of a branch stand for.
    Expand {
        branch: Name,
    },
}

/// A client with its commands.
#[derive(Drop)]
pub struct RawClient {
    /// The place of its name.
    pub at: Place,
    /// Its name.
    pub name: Name,
    /// At most 4,096 commands, in the order of the text.
    pub commands: List<RawCommand>,
}
