//! What is told as the pieces of a wave start.

/// It is called as each piece of a wave starts, on the thread of that piece.
pub trait Probe: Sync {
    /// The piece of this number, counted from 0 in the wave, starts.
    fn piece(&self, number: usize);
}

/// The probe that does nothing.
#[derive(Drop)]
pub struct NoProbe;

impl Probe for NoProbe {
    fn piece(&self, _number: usize) {}
}
