//! Where a simulation is.

ghost use Rattle.std.specs.Prelude.{◌≡◌, Some, None, nat_lt, if◌then◌else◌};
ghost use Rattle.aerie_base.specs.TimeOrder.{earlier};
ghost use Rattle.run_data.specs.Fresh.{below, least_due};
ghost use Rattle.live_tasks.specs.InStep.{table_in, IsInStep};
ghost use Rattle.live_tasks.specs.Waking.{AreFound};

use aerie_base::{Shared, Time};
use effect_cells::Cells;
use live_tasks::phases::micros;
use live_tasks::tasks::LiveTasks;
use run_data::laws::due_splits;

/// Where a simulation is: the time, what the costs come to so far, the cells and the tasks that are live.
#[derive(Drop)]
pub(crate) struct Present {
    pub(crate) time: Time,
    pub(crate) spent: u64,
    pub(crate) cells: Shared<Cells>,
    pub(crate) tasks: LiveTasks,
}

/// The earlier of two times that may be never.
fn earlier(time: Option<u64>, other: Option<u64>) -> Option<u64>
    ensures { result ≡ earlier time other }
{
    match time {
        None => other,
        Some(one) => match other {
            None => Some(one),
            Some(another) => Some(one.min(another)),
        },
    }
}

/// The time, if it is before the end.
fn before(time: u64, end: Time) -> Option<Time>
    ensures { result ≡ if nat_lt time end then Some time else None }
{
    if time < micros(end) {
        Time::new(time as i64)
    } else {
        None
    }
}

impl Present {
    /// The next time at which a task goes on by itself, if it is before the end.
    pub(crate) fn next_time(&self, end: Time) -> Option<Time>
        requires in_step { IsInStep self.now.tasks }
        requires found { AreFound self.now.time end self.now.cells self.now.tasks }
        ensures { result ≡ below end (least_due self.now.time end self.now.cells (table_in self.now.tasks)) }
    {
        due_splits();
        let time = earlier(self.tasks.next_delay(), self.tasks.next_wake())?;
        before(time, end)
    }
}
