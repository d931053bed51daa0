//! How plans of one model become plans of another.

ghost use Rattle.std.specs.Prelude.{◌≡◌, ◌↔◌, IsTrue, IfOk};

use aerie_base::{List, OutOfMemory, PlainData, Value, copy_list, same_list};
use std::alloc::Global;

/// What a parameter of the new type gets.
#[derive(Clone, Copy, Debug, PartialEq, Eq)]
pub enum Feed {
    /// The value of a parameter of the old type, counted from 0. Of a variant the number is kept.
    Old(u16),
    /// This value.
    Fixed(Value),
}

/// What becomes of the directives of one activity type.
#[derive(Debug, Drop)]
pub struct TypeRule {
    /// Their type in the old model, counted from 0.
    pub old: u16,
    /// Their type in the new model, counted from 0.
    pub new: u16,
    /// What each parameter of the new type gets, in the order of the parameters.
    pub feeds: List<Feed>,
}

/// How the plans of one model become plans of another.
#[derive(Debug, Drop)]
pub struct Mapping {
    /// The position of the old model among the models of the session, from 0.
    pub from: u16,
    /// The position of the new model among them.
    pub to: u16,
    /// The rules, at most one for each type of the old model.
    pub rules: List<TypeRule>,
}

impl PlainData for Feed {
    fn copied(&self, _alloc: Global) -> Result<Feed, OutOfMemory> {
        Ok(*self)
    }

    fn equals(&self, other: &Feed) -> bool {
        self == other
    }
}

impl PlainData for TypeRule {
    fn copied(&self, alloc: Global) -> Result<TypeRule, OutOfMemory> {
        self.copy(alloc)
    }

    fn equals(&self, other: &TypeRule) -> bool {
        self.is_same(other)
    }
}

impl TypeRule {
    /// An equal rule.
    pub fn copy(&self, alloc: Global) -> Result<TypeRule, OutOfMemory>
        ensures { IfOk result (λ copy. copy ≡ self.now) }
    {
        Ok(TypeRule {
            old: self.old,
            new: self.new,
            feeds: copy_list(alloc, &self.feeds)?,
        })
    }

    /// Whether the two are the same rule.
    pub fn is_same(&self, other: &TypeRule) -> bool
        ensures { IsTrue result ↔ (self.now ≡ other.now) }
    {
        self.old == other.old
            && self.new == other.new
            && same_list(self.feeds.as_slice(), other.feeds.as_slice())
    }
}

impl Mapping {
    /// An equal mapping.
    pub fn copy(&self, alloc: Global) -> Result<Mapping, OutOfMemory>
        ensures { IfOk result (λ copy. copy ≡ self.now) }
    {
        Ok(Mapping {
            from: self.from,
            to: self.to,
            rules: copy_list(alloc, &self.rules)?,
        })
    }
}
