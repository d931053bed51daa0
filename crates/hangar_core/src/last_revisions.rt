//! The last revisions of names that were dropped.

ghost use Rattle.std.specs.Prelude.{◌≡◌, ◌<◌, ◌^◌, [], OnOk, OnErr};
ghost use Rattle.std.specs.List.{AllByRecursion};
ghost use Rattle.hangar_core.specs.Opening.{first_revision, remembered};

use aerie_base::{Name, OutOfMemory};
use std::alloc::Global;
use std::collections::BTreeMap;
use std::marker::Model;

/// The last revision of each name that was dropped. Contracts see names with revisions, in order of name.
#[derive(Drop)]
pub struct LastRevisions {
    revisions: BTreeMap<Name, u64>,
}

impl Model for LastRevisions {
    ghost use Rattle.std.specs.Prelude.{List, ℕ};

    ghost Value = { List (List ℕ × ℕ) };

    ghost view = { λ last. last.revisions.entries };
}

impl LastRevisions {
    /// No name was dropped.
    pub fn new(alloc: Global) -> LastRevisions
        ensures { result ≡ [] }
    {
        LastRevisions {
            revisions: BTreeMap::new(alloc),
        }
    }

    /// The revision at which a branch with a name begins.
    pub fn first(&self, name: &Name) -> u64
        requires few { AllByRecursion (λ last. last.1 < 2 ^ 63) self.now }
        ensures { result ≡ first_revision self.now name.now }
    {
        match self.revisions.get(name) {
            Some(last) => *last + 1,
            None => 0,
        }
    }

    /// Remembers the last revision of a name.
    pub fn remember(&mut self, name: Name, revision: u64) -> Result<(), OutOfMemory>
        ensures remembered { OnOk result (self.new ≡ remembered self.old name revision) }
        ensures unchanged { OnErr result (self.new ≡ self.old) }
    {
        self.revisions.insert(name, revision)?;
        Ok(())
    }
}
