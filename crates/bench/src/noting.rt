//! The frames of a run are put into a book, and those that it did not hold are noted.

ghost use Rattle.std.specs.Prelude.{◌≡◌, ◌≤◌, [], ◌∷◌, ◌++◌, IfOk, IsTrue, OnOk, drop, get_or, length, slice_get, take};
ghost use Rattle.std.specs.List.{All};
ghost use Rattle.std.specs.Option.{option_copied};
ghost use Rattle.run_data.specs.Records.{IsValid, record_of};
ghost use Rattle.run_data.specs.RunFrames.{frames_in_batches, frames_in_instants, frames_in_run};
ghost use Rattle.record_book.specs.StoredSteps.{IsHeldIn};
ghost use Rattle.resimulate.specs.SharedEnds.{SharesEnds};
ghost use Rattle.bench.specs.HeldSteps.{AreValidFrames, Extends, HoldsInstants, HoldsRun};
ghost use Rattle.bench.specs.Noting.{HasSameStep, IsSameStep, Notes, batches_of, between, unheld};

use crate::putting::put;
use aerie_base::{List, OutOfMemory, Shared, Time, same_list};
use record_book::Book;
use run_data::{Frame, Instant, Run};
use std::alloc::Global;

/// Whether the step of a frame begins from the state of another's and read what that did.
fn is_like(frame: &Frame, other: &Frame) -> bool
    ensures { IsTrue result → IsSameStep frame.now other.now }
{
    other.before().is_same(frame.before())
        && same_list(other.reads().as_slice(), frame.reads().as_slice())
}

/// The old frame at a place, where there is one.
fn frame_at(old: &[Frame], at: usize) -> Option<&Frame>
    ensures { option_copied result ≡ slice_get old.now at }
{
    old.get(at)
}

/// Whether one of the old frames, at this place, is like a frame.
fn is_beside(frame: &Frame, old: &[Frame], at: usize) -> bool
    ensures { IsTrue result → HasSameStep old.now frame.now }
{
    match frame_at(old, at) {
        Some(other) => is_like(frame, other),
        None => false,
    }
}

/// Notes a frame, which is shared and not copied.
fn note(frame: &Frame, noted: &mut List<Frame>) -> Result<(), OutOfMemory>
    ensures { OnOk result (noted.new ≡ noted.old ++ frame.now ∷ []) }
{
    let shared = frame.share()?;
    noted.push(shared)?;
    Ok(())
}

/// Puts the step of a frame into a book. The frame is noted where none of so many first records has its state and its reads.
#[tactic(auto, using(crate::proofs::Extending::nothing_more, crate::proofs::Extending::with_one_more, crate::proofs::NotedFrames::noted_put_new, crate::proofs::NotedFrames::noted_put_old))]
fn note_frame(
    alloc: Global,
    book: &mut Book,
    first: usize,
    frame: &Frame,
    noted: &mut List<Frame>,
) -> Result<(), OutOfMemory>
    requires valid { IsValid book.old.model (record_of frame.now) }
    requires first { first ≤ length book.old.records }
    ensures model { book.new.model ≡ book.old.model }
    ensures extends { Extends book.old.records book.new.records }
    ensures notes { OnOk result (Notes (take first book.old.records) (frame.now ∷ [])
        book.old.records book.new.records noted.old noted.new) }
{
    let at = put(alloc, book, frame.step())?;
    let _once = book.model();
    if at < first {
        return Ok(());
    }
    note(frame, noted)?;
    Ok(())
}

/// The same, where a frame that is like the old one at its place is known to be held and is not looked for.
#[tactic(auto, using(crate::proofs::Extending::nothing_more, crate::proofs::NotedFrames::noted_like))]
fn note_beside(
    alloc: Global,
    book: &mut Book,
    first: usize,
    frame: &Frame,
    old: &[Frame],
    at: usize,
    noted: &mut List<Frame>,
) -> Result<(), OutOfMemory>
    requires valid { IsValid book.old.model (record_of frame.now) }
    requires first { first ≤ length book.old.records }
    requires old { All (IsHeldIn (take first book.old.records)) old.now }
    ensures model { book.new.model ≡ book.old.model }
    ensures extends { Extends book.old.records book.new.records }
    ensures notes { OnOk result (Notes (take first book.old.records) (frame.now ∷ [])
        book.old.records book.new.records noted.old noted.new) }
{
    if is_beside(frame, old, at) {
        return Ok(());
    }
    note_frame(alloc, book, first, frame, noted)
}

/// The same of the frames of a batch, beside those of an old one.
fn note_frames(
    alloc: Global,
    book: &mut Book,
    first: usize,
    frames: &[Frame],
    old: &[Frame],
    noted: &mut List<Frame>,
) -> Result<(), OutOfMemory>
    requires valid { All (λ frame. IsValid book.old.model (record_of frame)) frames.now }
    requires first { first ≤ length book.old.records }
    requires old { All (IsHeldIn (take first book.old.records)) old.now }
    ensures model { book.new.model ≡ book.old.model }
    ensures extends { Extends book.old.records book.new.records }
    ensures notes { OnOk result (Notes (take first book.old.records) frames.now
        book.old.records book.new.records noted.old noted.new) }
{
    let mut at: usize = 0;
    for frame in frames {
        note_beside(alloc, book, first, frame, old, at, noted)?;
        at = at.saturating_add(1);
    }
    Ok(())
}

/// The frames of the old batch at a place, none where there is no such batch.
fn old_frames(old: &[List<Frame>], at: usize) -> &[Frame]
    ensures { result.now ≡ get_or old.now at [] }
{
    match old.get(at) {
        Some(frames) => frames.as_slice(),
        None => &[],
    }
}

/// The same of the batches of an instant, beside those of an old one.
fn note_batches(
    alloc: Global,
    book: &mut Book,
    first: usize,
    batches: &[List<Frame>],
    old: &[List<Frame>],
    noted: &mut List<Frame>,
) -> Result<(), OutOfMemory>
    requires valid { All (All (λ frame. IsValid book.old.model (record_of frame))) batches.now }
    requires first { first ≤ length book.old.records }
    requires old { All (All (IsHeldIn (take first book.old.records))) old.now }
    ensures model { book.new.model ≡ book.old.model }
    ensures extends { Extends book.old.records book.new.records }
    ensures notes { OnOk result (Notes (take first book.old.records) (frames_in_batches batches.now)
        book.old.records book.new.records noted.old noted.new) }
{
    let mut at: usize = 0;
    for frames in batches {
        let beside = old_frames(old, at);
        note_frames(alloc, book, first, frames.as_slice(), beside, noted)?;
        at = at.saturating_add(1);
    }
    Ok(())
}

/// The place, from one on, of the first old instant at a time or behind it. Whatever is answered, a frame is compared before it is
/// taken to be held.
fn place_beside(old: &[Shared<Instant>], from: usize, time: Time) -> usize {
    for at in from..old.len() {
        if old[at].get().time >= time {
            return at;
        }
    }
    old.len()
}

/// The batches of the old instant at a place, none where there is no such instant.
fn old_batches(old: &[Shared<Instant>], at: usize) -> &[List<Frame>]
    ensures { result.now ≡ batches_of (slice_get old.now at) }
{
    match old.get(at) {
        Some(instant) => instant.get().batches.as_slice(),
        None => &[],
    }
}

/// The same of instants of a run, beside those of an old one from a place on, all of whose frames are held. It takes time linear in the
/// frames: a search for each that is not like the old one at its place, and a comparison for the others.
#[allow(clippy::too_many_arguments)]
fn note_instants(
    alloc: Global,
    book: &mut Book,
    first: usize,
    instants: &[Shared<Instant>],
    old: &[Shared<Instant>],
    from: usize,
    noted: &mut List<Frame>,
) -> Result<(), OutOfMemory>
    requires valid { AreValidFrames book.old.model instants.now }
    requires first { first ≤ length book.old.records }
    requires old { HoldsInstants (take first book.old.records) old.now }
    ensures model { book.new.model ≡ book.old.model }
    ensures extends { Extends book.old.records book.new.records }
    ensures notes { OnOk result (Notes (take first book.old.records) (frames_in_instants instants.now)
        book.old.records book.new.records noted.old noted.new) }
{
    let mut place = from;
    for instant in instants {
        place = place_beside(old, place, instant.get().time);
        let batches = instant.get().batches.as_slice();
        let beside = old_batches(old, place);
        note_batches(alloc, book, first, batches, beside, noted)?;
    }
    Ok(())
}

/// The instants between so many of the first and so many of the last.
fn between(instants: &[Shared<Instant>], front: usize, back: usize) -> &[Shared<Instant>]
    requires front { front ≤ length instants.now }
    requires back { back ≤ length (drop front instants.now) }
    ensures { result.now ≡ between front back instants.now }
{
    let parts = instants.split_at(front);
    let rest = parts.1;
    let inner = rest.split_at(rest.len() - back);
    inner.0
}

/// Puts the steps of all frames of a run into a book, and gives the frames whose steps it did not hold. Those that are like a frame
/// of the old instants beside them are known to be held, and so are those of the first and the last instants, which both share.
pub(crate) fn note_run(
    alloc: Global,
    book: &mut Book,
    run: &Run,
    old: &[Shared<Instant>],
    front: usize,
    back: usize,
) -> Result<List<Frame>, OutOfMemory>
    requires run { AreValidFrames book.old.model run.now.instants }
    requires old { HoldsInstants book.old.records old.now }
    requires shares { SharesEnds old.now run.now.instants front back }
    ensures model { book.new.model ≡ book.old.model }
    ensures extends { Extends book.old.records book.new.records }
    ensures noted { IfOk result (λ noted. noted ≡ unheld book.old.records (frames_in_run run.now)) }
    ensures valid { IfOk result (All (λ frame. IsValid book.old.model (record_of frame))) }
    ensures held { OnOk result (HoldsRun book.new.records run.now) }
{
    let first = book.len();
    let mut noted = List::new(alloc);
    let instants = between(run.instants.as_slice(), front, back);
    note_instants(alloc, book, first, instants, old, front, &mut noted)?;
    Ok(noted)
}
