//! Laws about what stands wherever a simulation comes.

ghost use Rattle.run_data.specs.laws.BatchFrames.{BatchFrames};
ghost use Rattle.run_data.specs.laws.QuietStates.{ReachedIsQuiet};
ghost use Rattle.run_data.specs.laws.ReachedStates.{ReachedIsOfModel};
ghost use Rattle.run_data.specs.laws.Weights.{WeightBegins, WeightFalls};

/// Wherever the simulation of a plan of a valid model comes, its table is in order, every task is of the model and under way,
/// each caller's callee is there and ends with a declared result, waiting conditions may be solved, the cells are of the model
/// and in range, the ready tasks may be stepped, and no task has made more children than the costs so far.
pub fn reached_states_are_of_the_model()
    ensures { ReachedIsOfModel }
{}

/// Each frame of a committed batch is of a ready task, or the first of a child that another of its frames made and that was
/// not there before; no two are of one path.
pub fn frames_of_batches_are_of_tasks()
    ensures { BatchFrames }
{}

/// Wherever the simulation of a plan of a model comes, no caller's callee has ended and no anchor has come: who may go on has
/// gone on.
pub fn reached_states_are_quiet()
    ensures { ReachedIsQuiet }
{}

/// A weight falls with each transition of a simulation: open tasks, the bound that is left, and the time that is left.
pub fn weight_falls()
    ensures falls { WeightFalls }
    ensures begins { WeightBegins }
{}
