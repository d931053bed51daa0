ghost use Rattle.std.specs.Prelude.{◌≡◌, IfOk};

use crate::effects::Effect;
use aerie_base::{List, OutOfMemory};
use std::alloc::Global;

/// The effects of a step and of its children, at most 66 levels deep.
#[cycle(tree)]
#[derive(Debug, Drop)]
pub struct Tree {
    /// The items: an effect happens before all items behind it, a child is concurrent with them.
    pub items: List<Part>,
}

/// An item of a tree.
#[cycle(tree)]
#[derive(Debug, Drop)]
pub enum Part {
    /// An effect.
    Emit {
        /// The cell that it is on, counted from 0 in the order of the model.
        cell: u16,
        /// The effect.
        effect: Effect,
    },
    /// A child.
    Child(Tree),
}

impl Tree {
    /// An equal tree, at a cost linear in its size.
    #[cycle(copy)]
    pub fn copy(&self, alloc: Global) -> Result<Tree, OutOfMemory>
        ensures { IfOk result (λ copy. copy ≡ self.now) }
    {
        let mut items = List::new(alloc);
        for part in self.items.as_slice() {
            items.push(part.copy(alloc)?)?;
        }
        Ok(Tree { items })
    }
}

impl Part {
    /// An equal item.
    #[cycle(copy)]
    pub fn copy(&self, alloc: Global) -> Result<Part, OutOfMemory>
        ensures { IfOk result (λ copy. copy ≡ self.now) }
    {
        match self {
            Part::Emit { cell, effect } => Ok(Part::Emit {
                cell: *cell,
                effect: *effect,
            }),
            Part::Child(child) => Ok(Part::Child(child.copy(alloc)?)),
        }
    }
}
