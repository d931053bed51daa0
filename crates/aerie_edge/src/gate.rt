/// A place in a client's simulation.
#[derive(Clone, Copy, Debug, PartialEq, Eq, Drop)]
pub enum Point {
    /// The simulation is about to start.
    Starts,
    /// The simulation has ended.
    Ends,
}

/// What may hold a simulation as it starts or as it ends. Threads share one gate.
pub trait Gate: Sync {
    /// Called outside any lock, as a simulation of the client's command with this number starts and as it ends.
    /// It may take its time; it answers nothing.
    fn at(&self, client: u32, command: u32, point: Point);
}
