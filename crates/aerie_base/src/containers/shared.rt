ghost use Rattle.std.specs.Prelude.{◌≡◌, IfOk, IfSome};
ghost use Rattle.std.specs.Borrow.{sem};

use crate::memory::OutOfMemory;
use std::alloc::Global;
use std::hash::{Hash, Hasher};
use std::marker::Model;
use std::sync::Arc;

/// A value with several owners, in one thread or in several, which contracts see as that value. Nobody can change it while
/// it has more than one owner.
#[derive(Drop)]
pub struct Shared<T> {
    content: Arc<T>,
}

impl<T> Model for Shared<T> {
    ghost use Rattle.std.specs.Arc.{arc_value};

    ghost Value = { T };

    ghost coded = { T.code };

    ghost view = { λ shared. arc_value shared.content };
}

impl<T> Shared<T> {
    ghost use Rattle.aerie_base.specs.Lending.{shared_lends};

    /// The value, to be changed, where this is its only owner.
    pub fn get_mut(&mut self) -> Option<&mut T>
        ensures* writes_back { sem 𝓛 (shared_lends T.row self.entry result) }
        ensures value { IfSome result (λ value. value.now ≡ self.old) }
    {
        Arc::get_mut(&mut self.content)
    }

    /// The value.
    pub fn get(&self) -> &T
        ensures { result.now ≡ self.now }
    {
        &self.content
    }

    /// One more owner of the same value, which is not copied.
    pub fn share(&self) -> Result<Shared<T>, OutOfMemory>
        ensures { IfOk result (λ shared. shared ≡ self.now) }
    {
        let content = Arc::try_clone(&self.content)?;
        Ok(Shared { content })
    }

    /// Takes the value out again where this is its last owner; otherwise this owner is dropped.
    pub fn into_inner(self) -> Option<T>
        ensures { IfSome result (λ value. value ≡ self) }
    {
        let Shared { content } = self;
        Arc::into_inner(content)
    }
}

impl<T: Drop> Shared<T> {
    /// Puts the value where it can have several owners. After want of memory the value is dropped.
    pub fn new(alloc: Global, value: T) -> Result<Shared<T>, OutOfMemory>
        ensures { IfOk result (λ shared. shared ≡ value) }
    {
        let content = Arc::new(alloc, value)?;
        Ok(Shared { content })
    }
}

/// Shared values are equal where their contents are, so a shared value may be a key of a map.
impl<T: PartialEq> PartialEq for Shared<T> {
    ghost eq = { T.eq };

    ghost laws = { T.PartialEq.laws };

    fn eq(&self, other: &Shared<T>) -> bool {
        *self.get() == *other.get()
    }
}

impl<T: Eq> Eq for Shared<T> {
    ghost laws = { T.Eq.laws };
}

impl<T: Hash> Hash for Shared<T> {
    ghost hash_input = { T.hash_input };

    ghost respects_eq = { T.respects_eq };

    fn hash<H: Hasher>(&self, state: &mut H) {
        self.get().hash(state);
    }
}
