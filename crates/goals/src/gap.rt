/// The first thing that a goal lacks on a run: of a recurrence the first point of time that is followed too late, of a
/// coexistence the first anchor without a start beside it, both in microseconds from the start of the plan; of a
/// cardinality how many starts there are, where those are too few.
#[derive(Clone, Copy, Debug, PartialEq, Eq)]
pub struct Gap {
    /// That time, or that number.
    pub at: i64,
}
