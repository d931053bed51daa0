//! Whose actions they are.

ghost use Rattle.std.specs.Prelude.{◌≡◌, IfOk};

use crate::actions::Action;
use aerie_base::OutOfMemory;
use std::alloc::Global;

/// An action of a client, with its position among those of the client.
#[derive(Drop)]
pub struct Entry {
    /// The client, from 0.
    pub client: u32,
    /// Which of its commands, from 0.
    pub command: u32,
    /// Which part of the command, from 0.
    pub part: u32,
    /// The action.
    pub action: Action,
}

impl Entry {
    /// An equal entry.
    pub fn copy(&self, alloc: Global) -> Result<Entry, OutOfMemory>
        ensures { IfOk result (λ copy. copy ≡ self.now) }
    {
        let action = self.action.copy(alloc)?;
        Ok(Entry {
            client: self.client,
            command: self.command,
            part: self.part,
            action,
        })
    }
}
