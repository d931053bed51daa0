ghost use Rattle.std.specs.Prelude.{◌≡◌, IfOk};

use crate::tasks::TaskState;
use aerie_base::{OutOfMemory, Path, Shared};
use effect_cells::Cells;

/// A step that is to be run.
#[derive(Drop)]
pub struct Job {
    /// The task.
    pub path: Shared<Path>,
    /// Its state before the step.
    pub state: Shared<TaskState>,
    /// The cells as it sees them.
    pub view: Shared<Cells>,
}

impl Job {
    /// The same job once more, of which nothing is copied.
    pub fn share(&self) -> Result<Job, OutOfMemory>
        ensures { IfOk result (λ shared. shared ≡ self.now) }
    {
        let path = self.path.share()?;
        let state = self.state.share()?;
        let view = self.view.share()?;
        Ok(Job { path, state, view })
    }
}
