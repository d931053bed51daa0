//! Names with numbers, looked up by hash, and names that may stand but once.

ghost use Rattle.std.specs.Prelude.{◌≡◌, ℕ, [], not, length, take, IfOk};
ghost use Rattle.aerie_base.specs.models.Names.{is_name_among};
ghost use Rattle.diagnostics.specs.NameLists.{with_name, name_number};
ghost use Rattle.diagnostics.specs.Diagnostics.{noted_by};
ghost use Rattle.diagnostics.specs.RepeatedNames.{repeated_at};

use crate::diagnostic::{Diagnostic, Ranked, note_unless};
use aerie_base::{Name, OutOfMemory, Place};
use indexmap::IndexSet;
use std::alloc::Global;
use std::marker::Model;

/// Different names, numbered in the order in which they were first seen. Contracts see the list of them.
#[derive(Drop)]
pub struct NameSet {
    names: IndexSet<Name>,
}

impl Model for NameSet {
    ghost use Rattle.std.specs.Prelude.{List, ℕ};
    ghost use Rattle.std.specs.Coded.{coded_list, coded_ℕ};

    ghost Value = { List (List ℕ) };

    ghost coded = { coded_list (coded_list coded_ℕ) };

    ghost view = { λ set. set.names.keys };
}

impl NameSet {
    /// No names.
    pub fn new(alloc: Global) -> NameSet
        ensures { result ≡ [] }
    {
        NameSet {
            names: IndexSet::new(alloc),
        }
    }

    /// Adds a name where it is not there, and tells whether it was not.
    pub fn add(&mut self, alloc: Global, name: &Name) -> Result<bool, OutOfMemory>
        ensures { IfOk result (λ is_new. (self.new ≡ with_name self.old name.now) × (is_new ≡ not (is_name_among name.now self.old))) }
    {
        let name = name.copy(alloc)?;
        match self.names.insert(name) {
            Ok(is_new) => Ok(is_new),
            Err(_) => Err(OutOfMemory),
        }
    }

    /// The number of a name, from 0.
    pub fn number(&self, name: &Name) -> Option<usize>
        ensures { result ≡ name_number name.now self.now }
    {
        self.names.get_index_of(name)
    }

    /// Whether a name is there.
    pub fn has(&self, name: &Name) -> bool
        ensures { result ≡ is_name_among name.now self.now }
    {
        self.names.contains(name)
    }

    /// How many there are.
    pub fn len(&self) -> usize
        ensures { result ≡ length self.now }
    {
        self.names.len()
    }

    /// Keeps the first ones, so many.
    pub fn truncate(&mut self, len: usize)
        ensures { self.new ≡ take len self.old }
    {
        self.names.truncate(len);
    }
}

/// Notes by this cause a name that is that of an earlier one, and adds it to them. A name is looked up by its hash.
pub fn note_repeated<C: Ranked>(
    alloc: Global,
    earlier: &mut NameSet,
    name: &Name,
    place: Place,
    cause: C,
    found: &mut Option<Diagnostic<C>>,
) -> Result<(), OutOfMemory>
    ensures { IfOk result (λ _. (earlier.new ≡ with_name earlier.old name.now) × (found.new ≡ noted_by C.rank found.old (repeated_at cause earlier.old name.now place))) }
{
    let is_new = earlier.add(alloc, name)?;
    note_unless(is_new, found, place, cause);
    Ok(())
}
