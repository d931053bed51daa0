//! What instants cost, and whether a bound pays for them. Where two simulations share their first instants only the later ones are
//! looked at.

ghost use Rattle.std.specs.Prelude.{◌≡◌, ◌+◌, ◌≤◌, IsTrue, IfSome};
ghost use Rattle.run_data.specs.Batches.{cost_of};
ghost use Rattle.run_data.specs.laws.RunCosts.{cost_of_batches, cost_of_instants};
ghost use Rattle.resimulate.specs.SharedEnds.{ShareFirst};

use aerie_base::{List, Shared};
use run_data::{Frame, Instant};

/// What is left after the frames of a batch, if they can be paid.
fn left_after_batch(left: u64, frames: &[Frame]) -> Option<u64>
    ensures { IfSome result (λ less. less + cost_of frames.now ≡ left) }
{
    let mut less = left;
    for frame in frames {
        let cost = frame.cost();
        if cost > less {
            return None;
        }
        less -= cost;
    }
    Some(less)
}

/// What is left after those of some batches.
fn left_after_batches(left: u64, batches: &[List<Frame>]) -> Option<u64>
    ensures { IfSome result (λ less. less + cost_of_batches batches.now ≡ left) }
{
    let mut less = left;
    for frames in batches {
        less = left_after_batch(less, frames.as_slice())?;
    }
    Some(less)
}

/// What is left after those of some instants.
fn left_after_instants(left: u64, instants: &[Shared<Instant>]) -> Option<u64>
    ensures { IfSome result (λ less. less + cost_of_instants instants.now ≡ left) }
{
    let mut less = left;
    for instant in instants {
        less = left_after_batches(less, instant.get().batches.as_slice())?;
    }
    Some(less)
}

/// What instants cost, unless that is beyond all numbers.
fn cost_of(instants: &[Shared<Instant>]) -> Option<u64>
    ensures { IfSome result (λ cost. cost ≡ cost_of_instants instants.now) }
{
    let left = left_after_instants(u64::MAX, instants)?;
    Some(u64::MAX - left)
}

/// Whether some instants are known to cost no more than others, of which so many of the first are the same.
fn cost_no_more(instants: &[Shared<Instant>], others: &[Shared<Instant>], first: usize) -> bool
    requires { ShareFirst instants.now others.now first }
    ensures { IsTrue result → cost_of_instants instants.now ≤ cost_of_instants others.now }
{
    let Some(mine) = cost_of(instants.split_at(first).1) else {
        return false;
    };
    let Some(other) = cost_of(others.split_at(first).1) else {
        return false;
    };
    mine <= other
}

/// Whether what is left of a bound pays for some instants.
fn can_pay(spent: u64, rest: &[Shared<Instant>], bound: u64) -> bool
    ensures { IsTrue result → spent + cost_of_instants rest.now ≤ bound }
{
    if spent > bound {
        return false;
    }
    match left_after_instants(bound - spent, rest) {
        Some(_) => true,
        None => false,
    }
}

/// Whether a bound pays for the rest of an old run behind these instants, of which so many of the first are those of the old run. Where
/// they cost no more than those of the old run before the rest, the old bound tells it, which paid for the old run.
pub(crate) fn can_end(
    bound: u64,
    old_bound: u64,
    spent: u64,
    instants: &[Shared<Instant>],
    before: &[Shared<Instant>],
    rest: &[Shared<Instant>],
    first: usize,
) -> bool
    requires spent { spent ≡ cost_of_instants instants.now }
    requires first { ShareFirst instants.now before.now first }
    requires paid { cost_of_instants before.now + cost_of_instants rest.now ≤ old_bound }
    ensures { IsTrue result → spent + cost_of_instants rest.now ≤ bound }
{
    if old_bound <= bound && cost_no_more(instants, before, first) {
        return true;
    }
    can_pay(spent, rest, bound)
}

/// What other instants cost, of which so many of the first are those of a simulation that spent so much, unless that is beyond all
/// numbers.
pub(crate) fn cost_of_others(
    spent: u64,
    instants: &[Shared<Instant>],
    others: &[Shared<Instant>],
    first: usize,
) -> Option<u64>
    requires spent { spent ≡ cost_of_instants instants.now }
    requires first { ShareFirst instants.now others.now first }
    ensures { IfSome result (λ cost. cost ≡ cost_of_instants others.now) }
{
    let mine = cost_of(instants.split_at(first).1)?;
    let other = cost_of(others.split_at(first).1)?;
    let common = spent.checked_sub(mine)?;
    let cost = common.checked_add(other)?;
    Some(cost)
}
