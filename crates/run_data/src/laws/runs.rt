//! Laws about runs.

ghost use Rattle.run_data.specs.laws.Ending.{FreshRunByTransitions, HasFreshRun, TransitionsFinish};
ghost use Rattle.run_data.specs.laws.FreshRuns.{BatchesAreReached, CellsAreInRange, CellsOfValidAreInRange, FramesOfRunsAreValid, FreshRunIsOfPlan};
ghost use Rattle.run_data.specs.laws.Transitions.{OneFreshRun, TransitionsStand};
ghost use Rattle.run_data.specs.laws.Replay.{CellsAreReplayed};
ghost use Rattle.run_data.specs.laws.Rising.{InstantsAreBeforeEnd, InstantsRise};

/// What so many transitions of the simulation give is where it stands at some time.
pub fn transitions_stand()
    ensures { TransitionsStand }
{}

/// A plan has one fresh run.
pub fn one_fresh_run()
    ensures { OneFreshRun }
{}

/// A fresh run is of its plan and under its bound; each of its batches is that of a state which its simulation reached, each
/// of its frames is a valid record, and the cells that are read off it are in range below its reach.
pub fn fresh_runs()
    ensures plan { FreshRunIsOfPlan }
    ensures batches { BatchesAreReached }
    ensures frames { FramesOfRunsAreValid }
    ensures cells { CellsAreInRange }
    ensures valid_cells { CellsOfValidAreInRange }
{}

/// The instants of a run rise from the start of the plan and lie before its end.
pub fn instants_rise()
    ensures rise { InstantsRise }
    ensures before { InstantsAreBeforeEnd }
{}

/// Every plan has a fresh run: after so many transitions the simulation has ended.
pub fn simulation_ends()
    ensures transitions { TransitionsFinish }
    ensures run { HasFreshRun }
    ensures same { FreshRunByTransitions }
{}

/// The cells that are read off the instants of a run are those that its simulation had.
pub fn cells_are_replayed()
    ensures { CellsAreReplayed }
{}
