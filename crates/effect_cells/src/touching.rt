ghost use Rattle.std.specs.Prelude.{◌≡◌, true, slice_set};
ghost use Rattle.effect_cells.specs.Folded.{folded_is_on, folded_part_is_on};
ghost use Rattle.effect_cells.specs.Touched.{also_touched, flagged_from};

use crate::trees::{Part, Tree};

/// Flags the cells on which the tree has an effect; the other flags stay, and a cell that has no flag is left out. It
/// takes no memory, and a time in the order of the tree's size.
pub fn flag_touched(tree: &Tree, flags: &mut [bool])
    ensures { flags.new ≡ also_touched tree.now flags.old }
{
    flag_tree(tree, flags);
}

/// The same over the fold, which is the form for a proof of the recursion.
#[cycle(flag)]
fn flag_tree(tree: &Tree, flags: &mut [bool])
    ensures { flags.new ≡ flagged_from (folded_is_on tree.now) 0 flags.old }
{
    for part in tree.items.as_slice() {
        flag_part(part, flags);
    }
}

#[cycle(flag)]
fn flag_part(part: &Part, flags: &mut [bool])
    ensures { flags.new ≡ flagged_from (folded_part_is_on part.now) 0 flags.old }
{
    match part {
        Part::Emit { cell, .. } => flag(flags, usize::from(*cell)),
        Part::Child(child) => flag_tree(child, flags),
    }
}

/// Flags a cell, where it has a flag.
pub(crate) fn flag(flags: &mut [bool], cell: usize)
    ensures { flags.new ≡ slice_set flags.old cell true }
{
    if cell < flags.len() {
        flags[cell] = true;
    }
}
