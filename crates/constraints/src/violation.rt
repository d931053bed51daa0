use aerie_base::Path;
use windows::Windows;

/// The times at which a constraint does not hold.
#[derive(Drop)]
pub struct Violation {
    /// The span for which it does not hold, by its path, where the rule is for each span of a type; else none.
    pub path: Option<Path>,
    /// The times, at least one of them. The reach is the run's.
    pub intervals: Windows,
}
