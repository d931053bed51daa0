ghost use Rattle.std.specs.Prelude.{◌≡◌};

use crate::gate::{Gate, Point};
use std::marker::Model;
use std::sync::atomic::{AtomicBool, Ordering};
use std::thread::yield_now;

/// A gate that holds one client's simulation at its start until another's has ended, for a number of iterations at most,
/// and tells which of the two happened.
#[derive(Drop)]
pub struct HoldUntil {
    held: u32,
    until: u32,
    iterations: u64,
    has_ended: AtomicBool,
    went_on: AtomicBool,
}

impl Model for HoldUntil {
    ghost use Rattle.aerie_edge.specs.Holding.{Held};

    ghost Value = { Held };

    ghost view = { λ g. record { held = g.held; until = g.until; iterations = g.iterations } };
}

impl HoldUntil {
    /// Holds each simulation of the client `held` at its start until one of the client `until` has ended, and for at
    /// most this many iterations, in each of which it looks and lets another thread run.
    pub fn new(held: u32, until: u32, iterations: u64) -> HoldUntil
        ensures { result ≡ record { held = held; until = until; iterations = iterations } }
    {
        HoldUntil {
            held,
            until,
            iterations,
            has_ended: AtomicBool::new(false),
            went_on: AtomicBool::new(false),
        }
    }

    /// A simulation of the held client went on because the other's had ended; false where it has not started, and
    /// where its iterations ran out.
    pub fn ended(&self) -> bool {
        self.went_on.load(Ordering::SeqCst)
    }

    fn hold(&self) {
        for _ in 0..self.iterations {
            if self.has_ended.load(Ordering::SeqCst) {
                self.went_on.store(true, Ordering::SeqCst);
                return;
            }
            yield_now();
        }
    }
}

impl Gate for HoldUntil {
    fn at(&self, client: u32, _command: u32, point: Point) {
        match point {
            Point::Starts if client == self.held => self.hold(),
            Point::Ends if client == self.until => self.has_ended.store(true, Ordering::SeqCst),
            _ => {}
        }
    }
}
