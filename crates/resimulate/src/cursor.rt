//! A cursor over the instants of an old run, beside which a plan is simulated.

ghost use Rattle.std.specs.Prelude.{◌≡◌, option_map};
ghost use Rattle.std.specs.Option.{option_copied};
ghost use Rattle.run_data.specs.laws.Rising.{RiseFromStart};
ghost use Rattle.resimulate.specs.OldBatches.{AreEarly, batch_of, instant_at_time};

use crate::old_batches::{batch_in, first_from, instant_at, is_earlier};
use aerie_base::{Shared, Time};
use run_data::{Frame, Instant};

/// A cursor over the instants of an old run, at some time. It goes on as the time of a simulation rises, so that each instant is
/// passed over once and none is searched for.
#[derive(Drop)]
pub(crate) struct Cursor<'r> {
    instants: &'r [Shared<Instant>],
    /// The index of the first instant that is not before the time.
    at: usize,
    /// That instant, if it is at the time.
    here: Option<&'r Instant>,
    /// Whether an instant lies between this time and the one before.
    has_passed: bool,
}

/// The index from which to look for a time: this one, if all instants before it are earlier, and else the first. A time that
/// rises never begins anew; the answer does not depend on that.
fn start_for(instants: &[Shared<Instant>], at: usize, time: Time) -> usize
    requires { RiseFromStart instants.now }
    ensures { AreEarly time result instants.now }
{
    if at == 0 {
        return 0;
    }
    let Some(before) = instants.get(at - 1) else {
        return 0;
    };
    if !is_earlier(before, time) {
        return 0;
    }
    at
}

impl<'r> Cursor<'r> {
    /// A cursor before the instant with an index.
    pub(crate) fn new(instants: &'r [Shared<Instant>], at: usize) -> Cursor<'r>
        ensures { result.instants.now ≡ instants.now }
    {
        Cursor {
            instants,
            at,
            here: None,
            has_passed: false,
        }
    }

    /// Goes to a time.
    pub(crate) fn go_to(&mut self, time: Time)
        requires { RiseFromStart self.old.instants.now }
        ensures instants { self.new.instants.now ≡ self.old.instants.now }
        ensures here { option_copied self.new.here ≡ instant_at_time time self.old.instants.now }
    {
        let past = self.past();
        let from = start_for(self.instants, self.at, time);
        let at = first_from(self.instants, from, time);
        self.has_passed = at > past;
        self.at = at;
        self.here = instant_at(self.instants, at, time);
    }

    /// The index of the first instant that is after the time.
    fn past(&self) -> usize {
        match self.here {
            Some(_) => self.at.saturating_add(1),
            None => self.at,
        }
    }

    /// Whether an instant lies between this time and the one before.
    pub(crate) fn has_passed(&self) -> bool {
        self.has_passed
    }

    /// The batch at the time and at a place of its instant.
    pub(crate) fn batch(&self, place: usize) -> Option<&'r [Frame]>
        ensures { option_map (λ frames. frames.now) result ≡ batch_of place (option_copied self.now.here) }
    {
        match self.here {
            Some(instant) => batch_in(instant, place),
            None => None,
        }
    }
}
