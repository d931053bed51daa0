ghost use Rattle.std.specs.Prelude.{◌≡◌, ◌≤◌, ◌<◌, ◌+◌, is_some};
ghost use Rattle.effect_cells.specs.Sums.{sum_limit};
ghost use Rattle.effect_cells.specs.Worth.{worth_of, has_effect_on, magnitude_of, magnitude, magnitude_if_any, in_front, beside};
ghost use Rattle.effect_cells.specs.Folded.{folded_worth, folded_magnitude, folded_part_worth, folded_part_magnitude};

use crate::effects::{Effect, concurrently, sequentially};
use crate::trees::{Part, Tree};

/// The effect of the tree on the cell, or `None` exactly where no effect in it is on that cell. It takes no memory, and
/// a time in the order of the tree's size.
#[tactic(auto, using(crate::specs::Folded::worth_is, crate::specs::Folded::magnitude_is))]
pub fn worth(tree: &Tree, cell: u16) -> Option<Effect>
    requires { magnitude_of tree.now < sum_limit }
    ensures value { result ≡ worth_of tree.now cell }
    ensures none { is_some result ≡ has_effect_on tree.now cell }
    ensures small { magnitude_if_any result ≤ magnitude_of tree.now }
{
    tree_worth(tree, cell)
}

/// The same, item by item from the back.
#[cycle(worth)]
pub(crate) fn tree_worth(tree: &Tree, cell: u16) -> Option<Effect>
    requires { folded_magnitude tree.now < sum_limit }
    ensures value { result ≡ folded_worth tree.now cell }
    ensures small { magnitude_if_any result ≤ folded_magnitude tree.now }
{
    let parts = tree.items.as_slice();
    let mut rest = None;
    let mut left = parts.len();
    while left > 0 {
        left -= 1;
        rest = part_before(&parts[left], cell, rest);
    }
    rest
}

/// The effect of the part on the cell and of what stands behind it, which is worth `rest`.
#[cycle(worth)]
fn part_before(part: &Part, cell: u16, rest: Option<Effect>) -> Option<Effect>
    requires { folded_part_magnitude part.now + magnitude_if_any rest < sum_limit }
    ensures value { result ≡ folded_part_worth part.now cell rest }
    ensures small { magnitude_if_any result ≤ folded_part_magnitude part.now + magnitude_if_any rest }
{
    match part {
        Part::Emit { cell: on, effect } => {
            if *on == cell {
                effect_before(effect, rest)
            } else {
                rest
            }
        }
        Part::Child(child) => beside_rest(tree_worth(child, cell), rest),
    }
}

fn effect_before(first: &Effect, rest: Option<Effect>) -> Option<Effect>
    requires { magnitude first.now + magnitude_if_any rest < sum_limit }
    ensures value { result ≡ in_front first.now rest }
    ensures small { magnitude_if_any result ≤ magnitude first.now + magnitude_if_any rest }
{
    match rest {
        None => Some(*first),
        Some(rest) => Some(sequentially(first, &rest)),
    }
}

fn beside_rest(child: Option<Effect>, rest: Option<Effect>) -> Option<Effect>
    requires { magnitude_if_any child + magnitude_if_any rest < sum_limit }
    ensures value { result ≡ beside child rest }
    ensures small { magnitude_if_any result ≤ magnitude_if_any child + magnitude_if_any rest }
{
    match child {
        None => rest,
        Some(child) => match rest {
            None => Some(child),
            Some(rest) => Some(concurrently(&child, &rest)),
        },
    }
}
