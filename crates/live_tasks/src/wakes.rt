//! The wake times that are kept: any of them may be taken out, so they stand in a set.

ghost use Rattle.std.specs.Prelude.{◌≡◌, ◌<◌, ℕ, true, false, None, Some, IfSome, OnOk};
ghost use Rattle.std.specs.BTreeSet as set;
ghost use Rattle.live_tasks.specs.LeastTimes.{IsNoneBefore, IsLeastTime};
ghost use Rattle.live_tasks.specs.WakeTimes.{has_wake, HasWakeToo, HasWakeNoMore, KeepsSorted};

use crate::phases::micros;
use aerie_base::{OutOfMemory, Time};
use std::collections::BTreeSet;

/// Puts the wake time of a number among others, if it has one.
pub fn list_wake(
    wakes: &mut BTreeSet<(u64, usize)>,
    number: usize,
    time: Option<u64>,
) -> Result<(), OutOfMemory>
    ensures more { OnOk result (HasWakeToo number time wakes.old wakes.new) }
    ensures sorted { KeepsSorted wakes.old wakes.new }
{
    let Some(time) = time else {
        return Ok(());
    };
    wakes.insert((time, number))?;
    Ok(())
}

/// Takes the wake time of a number out of others, if it has one.
pub fn leave_out(wakes: &mut BTreeSet<(u64, usize)>, number: usize, time: Option<u64>)
    ensures less { HasWakeNoMore number time wakes.old wakes.new }
    ensures sorted { KeepsSorted wakes.old wakes.new }
{
    let Some(time) = time else {
        return;
    };
    wakes.remove(&(time, number));
}

/// Takes the wake time of a number, which is now, out of others.
pub fn end_wake(wakes: &mut BTreeSet<(u64, usize)>, number: usize, now: Time)
    ensures less { HasWakeNoMore number (Some now) wakes.old wakes.new }
    ensures fewer { has_wake wakes.old now number ≡ true →
        set.btree_set_len wakes.new < set.btree_set_len wakes.old }
    ensures sorted { KeepsSorted wakes.old wakes.new }
{
    wakes.remove(&(micros(now), number));
}

/// A number whose wake time is now, where none is earlier.
pub fn first_waking(wakes: &BTreeSet<(u64, usize)>, now: Time) -> Option<usize>
    ensures found { IfSome result (λ number. has_wake wakes.now now number ≡ true) }
    ensures none { result ≡ None → IsNoneBefore now (has_wake wakes.now) →
        (number : ℕ) → has_wake wakes.now now number ≡ false }
{
    match wakes.first() {
        Some((time, number)) => {
            if *time == micros(now) {
                Some(*number)
            } else {
                None
            }
        }
        None => None,
    }
}

/// The least wake time.
pub fn least_wake(wakes: &BTreeSet<(u64, usize)>) -> Option<u64>
    ensures { IsLeastTime (has_wake wakes.now) result }
{
    match wakes.first() {
        Some((time, _)) => Some(*time),
        None => None,
    }
}
