//! The ends of delays: only the first of them is ever taken out, so they stand in a heap.

ghost use Rattle.std.specs.Prelude.{◌≡◌, ◌<◌, ℕ, false, None, length, IfOk, IfSome, OnOk};
ghost use Rattle.std.specs.BinaryHeap.{heap_items};
ghost use Rattle.live_tasks.specs.LeastTimes.{IsNoneBefore, IsLeastTime};
ghost use Rattle.live_tasks.specs.Listing.{has_delay, IsDelayHeap, HasDelayToo, StaysHeap, IsFirstEnd, HasDelayNoMore};

use crate::phases::micros;
use aerie_base::{OutOfMemory, Time};
use std::alloc::Global;
use std::cmp::Reverse;
use std::collections::BinaryHeap;

/// No delay.
pub fn no_delays(alloc: Global) -> BinaryHeap<Reverse<(u64, usize)>>
    ensures none { (time number : ℕ) → has_delay (heap_items result) time number ≡ false }
    ensures heap { IsDelayHeap (heap_items result) }
{
    BinaryHeap::new(alloc)
}

/// The same ends of delays once more.
pub fn copy_delays(
    alloc: Global,
    delays: &BinaryHeap<Reverse<(u64, usize)>>,
) -> Result<BinaryHeap<Reverse<(u64, usize)>>, OutOfMemory>
    ensures same { IfOk result (λ copy. (time number : ℕ) →
        has_delay (heap_items copy) time number ≡ has_delay (heap_items delays.now) time number) }
    ensures heap { IfOk result (λ copy.
        IsDelayHeap (heap_items delays.now) → IsDelayHeap (heap_items copy)) }
{
    let ends = Vec::from_slice(alloc, delays.as_slice())?;
    Ok(BinaryHeap::from(ends))
}

/// Puts the end of a delay, if there is one, among others with the number of its task.
pub fn list_delay(
    delays: &mut BinaryHeap<Reverse<(u64, usize)>>,
    number: usize,
    delay: Option<u64>,
) -> Result<(), OutOfMemory>
    ensures more { OnOk result (
        HasDelayToo number delay (heap_items delays.old) (heap_items delays.new)) }
    ensures heap { OnOk result (
        StaysHeap number delay (heap_items delays.old) (heap_items delays.new)) }
{
    let Some(time) = delay else {
        return Ok(());
    };
    delays.push(Reverse((time, number)))?;
    Ok(())
}

/// The number of a task whose delay ends at a time, where none ends earlier.
pub fn first_due(delays: &BinaryHeap<Reverse<(u64, usize)>>, now: Time) -> Option<usize>
    requires { IsDelayHeap (heap_items delays.now) }
    ensures found { IfSome result (λ number. IsFirstEnd now number (heap_items delays.now)) }
    ensures none { result ≡ None → IsNoneBefore now (has_delay (heap_items delays.now)) →
        (number : ℕ) → has_delay (heap_items delays.now) now number ≡ false }
{
    match delays.peek() {
        Some(Reverse((time, number))) => {
            if *time == micros(now) {
                Some(*number)
            } else {
                None
            }
        }
        None => None,
    }
}

/// Takes the end of a delay that is the first out of others.
pub fn end_first(delays: &mut BinaryHeap<Reverse<(u64, usize)>>)
    requires { IsDelayHeap (heap_items delays.old) }
    ensures less { (time number : ℕ) → IsFirstEnd time number (heap_items delays.old) →
        HasDelayNoMore number time (heap_items delays.old) (heap_items delays.new) }
    ensures fewer { (time number : ℕ) → IsFirstEnd time number (heap_items delays.old) →
        length (heap_items delays.new) < length (heap_items delays.old) }
    ensures heap { IsDelayHeap (heap_items delays.new) }
{
    delays.pop();
}

/// The least end of a delay.
pub fn least_end(delays: &BinaryHeap<Reverse<(u64, usize)>>) -> Option<u64>
    requires { IsDelayHeap (heap_items delays.now) }
    ensures { IsLeastTime (has_delay (heap_items delays.now)) result }
{
    match delays.peek() {
        Some(Reverse((time, _))) => Some(*time),
        None => None,
    }
}
