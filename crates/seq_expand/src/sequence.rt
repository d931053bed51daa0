//! Commands with their times.

use aerie_base::{List, Name, Path, Value};

/// A command with its time.
#[derive(Drop)]
pub struct Sent {
    /// When it is sent, in microseconds from the start of the plan; it may lie outside the plan.
    pub at: i64,
    /// The span that gave it.
    pub path: Path,
    /// The command's name.
    pub name: Name,
    /// The values of its words.
    pub arguments: List<Value>,
}

/// The commands of a run.
#[derive(Drop)]
pub struct Sequence {
    /// Those with a time within the plan, by time, then in the order of the spans, then of the steps.
    pub commands: List<Sent>,
    /// The others, in the same order.
    pub outside: List<Sent>,
    /// The positions of those commands, counted from 0 and rising, that stand too close behind the one before of their name.
    pub close: List<u64>,
}
