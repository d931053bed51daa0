//! What the lock guards.

ghost use Rattle.std.specs.Prelude.{◌≡◌, ◌≤◌, length, IfOk, OnErr};
ghost use Rattle.hangar_core.specs.Journals.{accepted_in};
ghost use Rattle.hangar_core.specs.ValidWorkspaces.{IsActionOn};
ghost use Rattle.hangar_lock.specs.Desks.{HasNoted, IsDeskStepped};

use crate::receipts::Receipt;
use aerie_base::OutOfMemory;
use hangar_core::{Entry, Hangar, Journal};
use std::alloc::Global;

/// A workspace with the journal of what was done to it.
#[derive(Drop)]
pub(crate) struct Desk {
    pub hangar: Hangar,
    pub journal: Journal,
}

impl Desk {
    /// Steps the workspace and notes the entry with its reply. Room is made first, so that after want of memory nothing has changed.
    pub fn act(&mut self, alloc: Global, entry: Entry) -> Result<Receipt, OutOfMemory>
        requires kept { self.old.hangar.accepted ≤ accepted_in self.old.journal }
        requires action { IsActionOn self.old.hangar.workspace entry.action }
        ensures stepped { IfOk result (IsDeskStepped self.old self.new entry.action) }
        ensures noted { IfOk result (HasNoted self.old self.new entry) }
        ensures placed { IfOk result (λ told. told.place ≡ length self.old.journal) }
        ensures kept { self.new.hangar.accepted ≤ accepted_in self.new.journal }
        ensures unchanged { OnErr result (self.new ≡ self.old) }
    {
        let place = self.journal.triples().len() as u64;
        let reply = self.journal.act(alloc, &mut self.hangar, entry)?;
        Ok(Receipt { place, reply })
    }
}
