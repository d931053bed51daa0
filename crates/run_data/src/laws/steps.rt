//! Laws about one step of a task.

ghost use Rattle.run_data.specs.laws.Budgets.{CostIsWithin, SameWithinCost};
ghost use Rattle.run_data.specs.laws.InTurn.{EffectsInTurn};
ghost use Rattle.run_data.specs.laws.MadeReads.{ReadsAgree};
ghost use Rattle.run_data.specs.laws.ModelSteps.{StepsKeepModel, WaitsGoByCells};
ghost use Rattle.run_data.specs.laws.Places.{PlacesAreFew, StatesStandInBodies};
ghost use Rattle.run_data.specs.laws.Reads.{FrameDependsOnReads, StepDependsOnReads};
ghost use Rattle.run_data.specs.laws.Results.{BeginsUnderWay, ResultsFit};
ghost use Rattle.run_data.specs.laws.SmallSteps.{ChildrenAreJobs, PendingStepsAreJobs, StepsAreSmall, WithinIsJob};
ghost use Rattle.run_data.specs.laws.Typing.{ChoiceRunsOn, LoopRunsOn, NextIsTyped, RunsOn, StatesBegin, StepEndsWell};
ghost use Rattle.run_data.specs.laws.ValidRecords.{FramesAreValid, SameReadsAreEqual, SameTasksAreEqual, ValidRecordsFit, ValidRecordsPass};

/// A step depends on its state and on the cells that it read, and on nothing else, and so does its frame, whose reads are the
/// cells of its job's view.
pub fn depends_on_reads()
    ensures step { StepDependsOnReads }
    ensures frame { FrameDependsOnReads }
    ensures view { ReadsAgree }
{}

/// What a step may cost decides whether it is run to its end, and nothing else.
pub fn budget_decides_the_end_alone()
    ensures within { CostIsWithin }
    ensures same { SameWithinCost }
{}

/// A step's own effects one after another are all of them at once, as a batch commits them.
pub fn effects_in_turn()
    ensures { EffectsInTurn }
{}

/// Every step that was run is a valid record, and a valid record is the step of each job that it fits.
pub fn steps_are_valid_records()
    ensures valid { FramesAreValid }
    ensures fit { ValidRecordsFit }
    ensures pass { ValidRecordsPass }
{}

/// Stored steps are found by tests that pass exactly for equal states and for equal reads.
pub fn records_are_found_by_equality()
    ensures states { SameTasksAreEqual }
    ensures reads { SameReadsAreEqual }
{}

/// A state of a model stands at a place of its body or at the end of it, and a body of a valid model has at most 8,192
/// places.
pub fn states_stand_in_bodies()
    ensures places { StatesStandInBodies }
    ensures few { PlacesAreFew }
{}

/// Wherever a run comes in a body of a valid model, the statement there is well typed and the locals go with the place:
/// at the state in which a step begins, behind each statement and each test, and at the state in which the task goes on.
pub fn statements_are_typed()
    ensures begins { StatesBegin }
    ensures typed { NextIsTyped }
    ensures onward { RunsOn }
    ensures choice { ChoiceRunsOn }
    ensures repeats { LoopRunsOn }
    ensures stopped { StepEndsWell }
{}

/// A step of a job of a valid model leaves all of the model: the state from which the task goes on, where it goes on, the
/// states in which its children begin, and the cells with its own effects.
pub fn steps_keep_the_model()
    ensures { StepsKeepModel }
{}

/// On cells of a model the time to wait for a condition can be computed exactly where it can by the types of the model's
/// cells. So what a task of a valid model waits for may be given to the search for its wake time.
pub fn waits_go_by_the_cells()
    ensures { WaitsGoByCells }
{}

/// A task of an activity type that has a result ends with a value of its type, or it faults.
pub fn results_are_as_declared()
    ensures results { ResultsFit }
    ensures begins { BeginsUnderWay }
{}

/// A step of a valid model gives numbers in range, effects that are of their cells and at most 10^18, and no more effects and
/// children than its cost; its children are jobs of the model, with views whose numbers are moved by no more than that.
pub fn steps_are_small()
    ensures small { StepsAreSmall }
    ensures children { ChildrenAreJobs }
    ensures generation { PendingStepsAreJobs }
    ensures jobs { WithinIsJob }
{}
