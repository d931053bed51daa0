//! The tasks that are anchored to directives, by the ids of these.

ghost use Rattle.std.specs.Prelude.{◌≡◌, ◌<◌, ◌≤◌, OnOk, length};
ghost use Rattle.std.specs.List.{AllWithin};
ghost use Rattle.slab.specs.Slab.{slab_len};
ghost use Rattle.live_tasks.specs.Endings.{FallDue};
ghost use Rattle.live_tasks.specs.Followers.{AreById, AreFollowers, AreFollowersOf};
ghost use Rattle.live_tasks.specs.ListedSlots.{KeepsExactly, KeepsWaits};

use crate::listed_slots::ListedSlots;
use aerie_base::{Edge, OutOfMemory, Time};

/// A task that is or was anchored to a directive.
#[derive(Clone, Copy, Drop)]
pub struct Follower {
    /// The id of the directive.
    pub to: u32,
    /// The number of the task.
    pub number: usize,
}

/// How many followers, which are in order of id, follow directives with ids below this one. It takes a time in the order of the
/// logarithm of their number.
fn count_before(followers: &[Follower], to: u32) -> usize
    requires { AreById followers.now }
    ensures before { AllWithin (λ follower. follower.to < to) followers.now 0 result }
    ensures from { AllWithin (λ follower. to ≤ follower.to) followers.now result (length followers.now) }
    ensures within { result ≤ length followers.now }
{
    followers.partition_point(|follower| follower.to < to)
}

/// An edge of the directive with an id has come: of these followers, none of whom follows one with an id below, those who follow that
/// directive fall due.
fn fall_first(
    tables: &mut ListedSlots,
    followers: &[Follower],
    now: Time,
    to: u32,
    edge: Edge,
) -> Result<(), OutOfMemory>
    requires { AreFollowersOf to tables.old.slots.slots followers.now }
    ensures falls { OnOk result (FallDue now to edge tables.old.slots.slots tables.new.slots.slots) }
    ensures length { OnOk result (slab_len tables.new.slots ≡ slab_len tables.old.slots) }
    ensures listed { OnOk result (KeepsExactly tables.old tables.new) }
    ensures waits { OnOk result (KeepsWaits tables.old tables.new) }
{
    for follower in followers {
        if follower.to != to {
            return Ok(());
        }
        tables.fall_due(follower.number, now, to, edge)?;
    }
    Ok(())
}

/// An edge of the directive with an id has come: those who follow it fall due.
pub fn fall_all(
    tables: &mut ListedSlots,
    followers: &[Follower],
    now: Time,
    to: u32,
    edge: Edge,
) -> Result<(), OutOfMemory>
    requires { AreFollowers tables.old.slots.slots followers.now }
    ensures falls { OnOk result (FallDue now to edge tables.old.slots.slots tables.new.slots.slots) }
    ensures length { OnOk result (slab_len tables.new.slots ≡ slab_len tables.old.slots) }
    ensures listed { OnOk result (KeepsExactly tables.old tables.new) }
    ensures waits { OnOk result (KeepsWaits tables.old tables.new) }
{
    let first = count_before(followers, to);
    fall_first(tables, &followers[first..], now, to, edge)?;
    Ok(())
}
