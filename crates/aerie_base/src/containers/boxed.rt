ghost use Rattle.std.specs.Prelude.{◌≡◌, IfOk};

use crate::memory::OutOfMemory;
use std::alloc::Global;
use std::marker::Model;

/// A value of its own place on the heap, which contracts see as that value. A type may reach itself through it.
#[derive(Debug, Drop)]
pub struct Boxed<T> {
    content: Box<T>,
}

impl<T> Model for Boxed<T> {
    ghost Value = { T };

    ghost coded = { T.code };

    ghost view = { λ boxed. boxed.content.value };
}

impl<T> Boxed<T> {
    /// The value.
    pub fn get(&self) -> &T
        ensures { result.now ≡ self.now }
    {
        &self.content
    }

    /// Takes the value out again.
    pub fn into_inner(self) -> T
        ensures { result ≡ self }
    {
        let Boxed { content } = self;
        Box::into_inner(content)
    }
}

impl<T: Drop> Boxed<T> {
    /// Puts the value on the heap. After want of memory the value is dropped.
    pub fn new(alloc: Global, value: T) -> Result<Boxed<T>, OutOfMemory>
        ensures { IfOk result (λ boxed. boxed ≡ value) }
    {
        let content = Box::new(alloc, value)?;
        Ok(Boxed { content })
    }
}
