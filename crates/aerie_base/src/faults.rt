/// What ends a task and with it the whole simulation.
#[derive(Clone, Copy, Debug, PartialEq, Eq)]
pub enum Fault {
    /// A number, or a counter, volume or rate that was read, is out of its range.
    Range,
    /// A divisor is 0.
    Divide,
    /// A `delay` by less than 0.
    NegativeDelay,
    /// A child whose path would have more than 64 numbers behind the id.
    TooDeep,
}
