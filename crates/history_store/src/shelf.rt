//! How many chapters a publisher has published.

ghost use Rattle.std.specs.Prelude.{◌≡◌, ◌+◌, ◌<◌, ◌≤◌, ◌↔◌, IsTrue};
ghost use Rattle.history_store.specs.Publishing.{most_published};

use std::marker::Model;

/// How many chapters one shelf may publish.
pub const MOST_PUBLISHED: u32 = 16;

/// Counts the chapters that one publisher has published, 16 at most. Contracts see a shelf as this number.
#[derive(Drop)]
pub struct Shelf {
    published: u32,
}

impl Model for Shelf {
    ghost use Rattle.std.specs.Prelude.{ℕ, ◌≤◌};
    ghost use Rattle.history_store.specs.Publishing.{most_published};

    ghost Value = { ℕ };

    ghost view = { λ shelf. shelf.published };

    ghost invariant = { λ shelf. shelf.published ≤ most_published };
}

impl Shelf {
    /// A shelf that has published nothing. It takes no memory.
    pub fn new() -> Shelf
        ensures { result ≡ 0 }
    {
        Shelf { published: 0 }
    }

    /// Whether it has published as many chapters as it may.
    pub(crate) fn is_full(&self) -> bool
        ensures full { IsTrue result ↔ (self.now ≡ most_published) }
        ensures few { self.now ≤ most_published }
    {
        self.published == MOST_PUBLISHED
    }

    /// Counts one chapter more.
    pub(crate) fn count(&mut self)
        requires { self.old < most_published }
        ensures { self.new ≡ self.old + 1 }
    {
        self.published += 1;
    }
}
