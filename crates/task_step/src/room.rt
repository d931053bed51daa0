//! What many steps use one after another.

ghost use Rattle.std.specs.Prelude.{◌≡◌, [], IfOk};

use crate::written_cells::WrittenCells;
use aerie_base::{List, OutOfMemory};
use run_data::Item;
use std::alloc::Global;

/// The lists that a step fills while it runs, once there was one. The next step fills them again, so that only the first takes
/// memory for them, and a frame has lists of its own that take no more than they need.
#[derive(Drop)]
pub struct Room {
    written: Option<WrittenCells>,
    items: Option<List<Item>>,
}

impl Room {
    /// No list yet. It takes no memory.
    pub fn new() -> Room {
        Room {
            written: None,
            items: None,
        }
    }

    /// Takes out what is to have the cells that a step writes: none so far.
    pub(crate) fn take_written(&mut self, alloc: Global) -> WrittenCells
        ensures { result ≡ [] }
    {
        match self.written.take() {
            Some(mut written) => {
                written.clear();
                written
            }
            None => WrittenCells::none(alloc),
        }
    }

    /// Takes out what is to have the items of a step: none so far.
    pub(crate) fn take_items(&mut self, alloc: Global) -> List<Item>
        ensures { result ≡ [] }
    {
        match self.items.take() {
            Some(mut items) => {
                items.items.clear();
                items
            }
            None => List::new(alloc),
        }
    }

    /// Puts both back behind a step.
    pub(crate) fn put_back(&mut self, written: WrittenCells, items: List<Item>) {
        self.written = Some(written);
        self.items = Some(items);
    }
}

/// The items of a list, moved into one that has room for no more.
pub(crate) fn exact(alloc: Global, items: &mut List<Item>) -> Result<List<Item>, OutOfMemory>
    ensures { IfOk result (λ exact. exact ≡ items.old) }
{
    let mut exact = Vec::with_capacity(alloc, items.len())?;
    exact.append(&mut items.items)?;
    Ok(List::from_vec(exact))
}
