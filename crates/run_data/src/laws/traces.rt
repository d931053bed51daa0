//! Laws about what the frames of a run tell of its tasks.

ghost use Rattle.run_data.specs.laws.SettledInstants.{InstantsAreSettled};
ghost use Rattle.run_data.specs.laws.TracedTasks.{TasksAreTraced};
ghost use Rattle.run_data.specs.laws.UnbegunDirectives.{UnbegunAreAsPlanned};

/// Each instant of a run is that of a settled state, in which each task is as its frames left it, and each directive without
/// frames waits as it is planned.
pub fn tasks_are_traced_by_their_frames()
    ensures traced { TasksAreTraced }
    ensures settled { InstantsAreSettled }
    ensures unbegun { UnbegunAreAsPlanned }
{}
