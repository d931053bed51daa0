//! Values that go by names.

ghost use Rattle.std.specs.Prelude.{◌≡◌, not, option_map, IfOk};
ghost use Rattle.aerie_base.specs.models.Names.{is_name_among};
ghost use Rattle.model_check.specs.NameTables.{no_entries, with_entry, entry_in, first_entries};

use aerie_base::{List, Name, OutOfMemory};
use diagnostics::NameSet;
use std::alloc::Global;

/// Different names, each with a value, numbered in the order in which they were first seen.
#[derive(Drop)]
pub(crate) struct NameTable<T> {
    /// The names.
    pub names: NameSet,
    /// Their values in the same order.
    pub values: List<T>,
}

impl<T: Drop> NameTable<T> {
    /// No names.
    pub(crate) fn new(alloc: Global) -> NameTable<T>
        ensures { result ≡ no_entries }
    {
        NameTable {
            names: NameSet::new(alloc),
            values: List::new(alloc),
        }
    }

    /// Adds a name with its value, where the name is not there, and tells whether it was not.
    pub(crate) fn add(&mut self, alloc: Global, name: &Name, value: T) -> Result<bool, OutOfMemory>
        ensures { IfOk result (λ is_new. (self.new ≡ with_entry self.old name.now value) × (is_new ≡ not (is_name_among name.now self.old.names))) }
    {
        let is_new = self.names.add(alloc, name)?;
        if is_new {
            self.values.push(value)?;
        }
        Ok(is_new)
    }

    /// The number of a name and its value.
    pub(crate) fn find(&self, name: &Name) -> Option<(usize, &T)>
        ensures { option_map (λ found. (found.0, found.1.now)) result ≡ entry_in name.now self.now }
    {
        let number = self.names.number(name)?;
        let value = self.values.as_slice().get(number)?;
        Some((number, value))
    }

    /// Keeps the first ones, so many.
    pub(crate) fn truncate(&mut self, len: usize)
        ensures { self.new ≡ first_entries len self.old }
    {
        self.names.truncate(len);
        self.values.items.truncate(len);
    }
}

impl<T: Copy + Drop> NameTable<T> {
    /// The number of a name and a copy of its value.
    pub(crate) fn entry(&self, name: &Name) -> Option<(usize, T)>
        ensures { result ≡ entry_in name.now self.now }
    {
        let (number, value) = self.find(name)?;
        Some((number, *value))
    }
}
