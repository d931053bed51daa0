//! Hints by trial.

ghost use Rattle.std.specs.Prelude.{◌≡◌, ◌≤◌, IsTrue, IfOk, IfSome, length};
ghost use Rattle.std.specs.List.{AllByRecursion};
ghost use Rattle.explain.specs.Hints.{applied as applied_by};
ghost use Rattle.hint_trials.specs.Reached.{reached as reached_by};
ghost use Rattle.hint_trials.specs.Trials.{TakesFurther};

use crate::candidates::candidates;
use crate::reaching::reached;
use crate::stages::Reach;
use aerie_base::{List, OutOfMemory};
use explain::Hint;
use refusal_text::Refusal;
use std::alloc::Global;

/// The most bytes of a text that is tried.
const MOST_BYTES: usize = 1_048_576;

/// The most hints that are tried. A trial reads a text at most twice, so that with what is read of the text itself no more than 128
/// readings are made.
const MOST_TRIALS: usize = 62;

/// The most hints that are shown.
const MOST_HINTS: usize = 3;

/// Whether the bytes that a hint leaves out are there.
fn is_there(bytes: &[u8], hint: &Hint) -> bool
    ensures rises { IsTrue result → hint.now.from ≤ hint.now.to }
    ensures within { IsTrue result → hint.now.to ≤ length bytes.now }
{
    hint.from <= hint.to && hint.to <= bytes.len()
}

/// The bytes with a hint in place.
fn applied(alloc: Global, bytes: &[u8], hint: &Hint) -> Result<List<u8>, OutOfMemory>
    requires rises { hint.now.from ≤ hint.now.to }
    requires within { hint.now.to ≤ length bytes.now }
    ensures { IfOk result (λ with. with ≡ applied_by bytes.now hint.now) }
{
    let mut with = Vec::with_capacity(alloc, bytes.len())?;
    with.extend_from_slice(&bytes[..hint.from])?;
    with.extend_from_slice(hint.put.as_str().as_bytes())?;
    with.extend_from_slice(&bytes[hint.to..])?;
    Ok(List::from_vec(with))
}

/// How far the judging comes with a hint in place, where that is further than without it.
fn tried(
    alloc: Global,
    bytes: &[u8],
    before: Reach,
    hint: &Hint,
) -> Result<Option<Reach>, OutOfMemory>
    requires before { before ≡ reached_by bytes.now }
    ensures { IfOk result (λ found. IfSome found (λ after. TakesFurther bytes.now hint.now)) }
{
    if !is_there(bytes, hint) {
        return Ok(None);
    }
    let with = applied(alloc, bytes, hint)?;
    if MOST_BYTES < with.len() {
        return Ok(None);
    }
    let after = reached(alloc, with.as_slice())?;
    if before.is_passed_by(after) {
        Ok(Some(after))
    } else {
        Ok(None)
    }
}

/// The hints with one more behind them.
#[tactic(auto, using(crate::proofs::Keeping::all_added))]
fn pushed(bytes: &[u8], hints: List<Hint>, hint: Hint) -> Result<List<Hint>, OutOfMemory>
    requires earlier { AllByRecursion (TakesFurther bytes.now) hints }
    requires further { TakesFurther bytes.now hint }
    ensures { IfOk result (λ more. AllByRecursion (TakesFurther bytes.now) more) }
{
    let mut more = hints;
    more.push(hint)?;
    Ok(more)
}

/// The hints that came furthest so far.
#[derive(Drop)]
struct BestHints {
    reached: Reach,
    hints: List<Hint>,
}

impl BestHints {
    /// Whether nothing better can come: as many hints as are shown, with each of which nothing is refused.
    fn is_done(&self) -> bool {
        matches!(self.reached, Reach::Accepted) && self.hints.len() == MOST_HINTS
    }

    /// Takes a hint with which the judging of the bytes comes so far. Of all taken hints those stay that come furthest, the first three
    /// of them.
    fn take(
        self,
        alloc: Global,
        bytes: &[u8],
        hint: Hint,
        after: Reach,
    ) -> Result<BestHints, OutOfMemory>
        requires earlier { AllByRecursion (TakesFurther bytes.now) self.hints }
        requires further { TakesFurther bytes.now hint }
        ensures { IfOk result (λ kept. AllByRecursion (TakesFurther bytes.now) kept.hints) }
    {
        let BestHints { reached, hints } = self;
        if reached.is_passed_by(after) {
            let hints = pushed(bytes, List::new(alloc), hint)?;
            return Ok(BestHints {
                reached: after,
                hints,
            });
        }
        if after.is_passed_by(reached) || MOST_HINTS <= hints.len() {
            return Ok(BestHints { reached, hints });
        }
        let hints = pushed(bytes, hints, hint)?;
        Ok(BestHints { reached, hints })
    }
}

/// Tries a hint, and keeps it if it is one of the best.
fn kept_if_further(
    alloc: Global,
    bytes: &[u8],
    before: Reach,
    kept: BestHints,
    hint: Hint,
) -> Result<BestHints, OutOfMemory>
    requires before { before ≡ reached_by bytes.now }
    requires further { AllByRecursion (TakesFurther bytes.now) kept.hints }
    ensures { IfOk result (λ kept. AllByRecursion (TakesFurther bytes.now) kept.hints) }
{
    match tried(alloc, bytes, before, &hint)? {
        Some(after) => kept.take(alloc, bytes, hint, after),
        None => Ok(kept),
    }
}

/// Those of some hints that come furthest.
fn best(
    alloc: Global,
    bytes: &[u8],
    before: Reach,
    untried: List<Hint>,
) -> Result<List<Hint>, OutOfMemory>
    requires before { before ≡ reached_by bytes.now }
    ensures { IfOk result (AllByRecursion (TakesFurther bytes.now)) }
{
    let mut kept = BestHints {
        reached: before,
        hints: List::new(alloc),
    };
    let mut trials = 0;
    for hint in untried.into_vec() {
        if MOST_TRIALS <= trials || kept.is_done() {
            break;
        }
        trials += 1;
        kept = kept_if_further(alloc, bytes, before, kept, hint)?;
    }
    Ok(kept.hints)
}

/// What takes a session further that is refused so: at most three changes of its text, those with which the judging comes furthest, and
/// of these the first that were found. Each hint, applied as it stands, takes the session further: its first refusal is then of a later
/// stage, or of the same stage at a later place or number, or there is none. For that it does not matter which refusal is handed in. For
/// more than 1,048,576 bytes there is no hint. At most 62 changes are tried, each in time linear in the bytes, and none on a longer text.
pub fn hints(alloc: Global, bytes: &[u8], refusal: &Refusal) -> Result<List<Hint>, OutOfMemory>
    ensures further { IfOk result (AllByRecursion (TakesFurther bytes.now)) }
{
    if MOST_BYTES < bytes.len() {
        return Ok(List::new(alloc));
    }
    let before = reached(alloc, bytes)?;
    let untried = candidates(alloc, bytes, refusal)?;
    best(alloc, bytes, before, untried)
}
