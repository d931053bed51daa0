ghost use Rattle.std.specs.Prelude.{◌≡◌, IfOk};

use aerie_base::{List, OutOfMemory, Path, Time, Value, copy_list};
use std::alloc::Global;

/// An activity of a run, from its first step to its end.
#[derive(Debug, Drop)]
pub struct Span {
    /// The task that ran it.
    pub path: Path,
    /// Its type, counted from 0 in the order of the model.
    pub kind: u16,
    /// Its arguments, in the order of the parameters.
    pub arguments: List<Value>,
    /// When it began, in microseconds from the start of the plan.
    pub start: Time,
    /// When it ended: when the last step was of the task or of one below it, once the bodies of all of them have ended; none
    /// where the run ended before.
    pub end: Option<Time>,
    /// What its body returned; none as long as it has no end.
    pub result: Option<Value>,
}

impl Span {
    /// An equal span.
    pub fn copy(&self, alloc: Global) -> Result<Span, OutOfMemory>
        ensures { IfOk result (λ copy. copy ≡ self.now) }
    {
        let path = self.path.copy(alloc)?;
        let arguments = copy_list(alloc, &self.arguments)?;
        Ok(Span {
            path,
            kind: self.kind,
            arguments,
            start: self.start,
            end: self.end,
            result: self.result,
        })
    }
}
