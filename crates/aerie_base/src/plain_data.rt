//! Copies and comparisons of lists, item by item.

ghost use Rattle.std.specs.Prelude.{◌≡◌, ◌↔◌, IsTrue, IfOk};

use crate::containers::List;
use crate::expressions::Expr;
use crate::linear::Term;
use crate::memory::OutOfMemory;
use crate::models::{Activity, CellStart, Daemon, EnumType, Parameter, Resource};
use crate::names::Name;
use crate::plans::Directive;
use crate::values::Value;
use std::alloc::Global;

/// Values that mean no more than what they hold: a copy of one is equal to it, and two can be compared.
pub trait PlainData: Sized {
    /// An equal value, in memory of its own.
    fn copied(&self, alloc: Global) -> Result<Self, OutOfMemory>
        ensures { IfOk result (λ copy. copy ≡ self.now) };

    /// Whether the two are the same value.
    fn equals(&self, other: &Self) -> bool
        ensures { IsTrue result ↔ (self.now ≡ other.now) };
}

/// An equal list, in memory of its own, at a cost linear in its size.
pub fn copy_list<T: PlainData + Drop>(
    alloc: Global,
    items: &List<T>,
) -> Result<List<T>, OutOfMemory>
    ensures { IfOk result (λ copies. copies ≡ items.now) }
{
    let mut copies = List::with_capacity(alloc, items.len())?;
    for item in items.as_slice() {
        copies.push(item.copied(alloc)?)?;
    }
    Ok(copies)
}

/// Whether the two lists are the same: as long, with the same item at each place.
pub fn same_list<T: PlainData>(items: &[T], others: &[T]) -> bool
    ensures { IsTrue result ↔ (items.now ≡ others.now) }
{
    if items.len() != others.len() {
        return false;
    }
    for at in 0..items.len() {
        if !items[at].equals(&others[at]) {
            return false;
        }
    }
    true
}

impl PlainData for u16 {
    fn copied(&self, _alloc: Global) -> Result<u16, OutOfMemory> {
        Ok(*self)
    }

    fn equals(&self, other: &u16) -> bool {
        self == other
    }
}

impl PlainData for Value {
    fn copied(&self, _alloc: Global) -> Result<Value, OutOfMemory> {
        Ok(*self)
    }

    fn equals(&self, other: &Value) -> bool {
        self.is_same(other)
    }
}

impl PlainData for Term {
    fn copied(&self, _alloc: Global) -> Result<Term, OutOfMemory> {
        Ok(*self)
    }

    fn equals(&self, other: &Term) -> bool {
        self == other
    }
}

impl PlainData for Name {
    fn copied(&self, alloc: Global) -> Result<Name, OutOfMemory> {
        self.copy(alloc)
    }

    fn equals(&self, other: &Name) -> bool {
        self.is_same(other)
    }
}

impl PlainData for Expr {
    fn copied(&self, alloc: Global) -> Result<Expr, OutOfMemory> {
        self.copy(alloc)
    }

    fn equals(&self, other: &Expr) -> bool {
        self.is_same(other)
    }
}

impl PlainData for Parameter {
    fn copied(&self, alloc: Global) -> Result<Parameter, OutOfMemory> {
        self.copy(alloc)
    }

    fn equals(&self, other: &Parameter) -> bool {
        self.is_same(other)
    }
}

impl PlainData for Directive {
    fn copied(&self, alloc: Global) -> Result<Directive, OutOfMemory> {
        self.copy(alloc)
    }

    fn equals(&self, other: &Directive) -> bool {
        self.is_same(other)
    }
}

impl PlainData for EnumType {
    fn copied(&self, alloc: Global) -> Result<EnumType, OutOfMemory> {
        self.copy(alloc)
    }

    fn equals(&self, other: &EnumType) -> bool {
        self.is_same(other)
    }
}

impl PlainData for Resource {
    fn copied(&self, alloc: Global) -> Result<Resource, OutOfMemory> {
        self.copy(alloc)
    }

    fn equals(&self, other: &Resource) -> bool {
        self.is_same(other)
    }
}

impl PlainData for Activity {
    fn copied(&self, alloc: Global) -> Result<Activity, OutOfMemory> {
        self.copy(alloc)
    }

    fn equals(&self, other: &Activity) -> bool {
        self.is_same(other)
    }
}

impl PlainData for Daemon {
    fn copied(&self, alloc: Global) -> Result<Daemon, OutOfMemory> {
        self.copy(alloc)
    }

    fn equals(&self, other: &Daemon) -> bool {
        self.is_same(other)
    }
}

impl PlainData for CellStart {
    fn copied(&self, _alloc: Global) -> Result<CellStart, OutOfMemory> {
        Ok(*self)
    }

    fn equals(&self, other: &CellStart) -> bool {
        self == other
    }
}

impl<A: PlainData + Drop, B: PlainData + Drop> PlainData for (A, B) {
    fn copied(&self, alloc: Global) -> Result<(A, B), OutOfMemory> {
        let first = self.0.copied(alloc)?;
        Ok((first, self.1.copied(alloc)?))
    }

    fn equals(&self, other: &(A, B)) -> bool {
        self.0.equals(&other.0) && self.1.equals(&other.1)
    }
}
