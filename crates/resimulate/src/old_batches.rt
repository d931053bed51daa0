//! The instants of an old run, and their batches, by time and place.

ghost use Rattle.std.specs.Prelude.{◌≡◌, nat_eq, option_map, slice_get};
ghost use Rattle.std.specs.Option.{option_copied};
ghost use Rattle.run_data.specs.laws.Rising.{RiseFromStart};
ghost use Rattle.resimulate.specs.OldBatches.{AreEarly, IsFirstFrom, instant_at_time, is_earlier};

use aerie_base::{Shared, Time};
use run_data::{Frame, Instant};

/// Whether an instant is before a time.
pub(crate) fn is_earlier(instant: &Shared<Instant>, time: Time) -> bool
    ensures { result ≡ is_earlier time instant.now }
{
    instant.get().time < time
}

/// Whether an instant is at a time.
fn is_at(instant: &Instant, time: Time) -> bool
    ensures { result ≡ nat_eq instant.now.time time }
{
    instant.time == time
}

/// The index of the first instant that is not before a time, where that is this one or a later one.
pub(crate) fn first_from(instants: &[Shared<Instant>], from: usize, time: Time) -> usize
    requires { AreEarly time from instants.now }
    ensures { IsFirstFrom time result instants.now }
{
    for at in from..instants.len() {
        if !is_earlier(&instants[at], time) {
            return at;
        }
    }
    instants.len()
}

/// The instant at a time, where the first that is not before it has this index.
pub(crate) fn instant_at(instants: &[Shared<Instant>], at: usize, time: Time) -> Option<&Instant>
    requires rise { RiseFromStart instants.now }
    requires first { IsFirstFrom time at instants.now }
    ensures { option_copied result ≡ instant_at_time time instants.now }
{
    let Some(shared) = instants.get(at) else {
        return None;
    };
    let instant = shared.get();
    if is_at(instant, time) {
        Some(instant)
    } else {
        None
    }
}

/// The batch of an instant at a place.
pub(crate) fn batch_in(instant: &Instant, place: usize) -> Option<&[Frame]>
    ensures { option_map (λ frames. frames.now) result ≡ slice_get instant.now.batches place }
{
    match instant.batches.as_slice().get(place) {
        Some(frames) => Some(frames.as_slice()),
        None => None,
    }
}
