//! Laws about what is noted of two simulations, each the promise of a function without a body.

ghost use Rattle.resimulate.specs.AlikeByFrames.{FramesTellAlike};
ghost use Rattle.resimulate.specs.LastChanges.{LastChangesTellCells};
ghost use Rattle.resimulate.specs.SettledBefore.{InstantsFollowSettled};
ghost use Rattle.resimulate.specs.Noting.{NothingNotedIsAlike, RestIsTakenOverUnnoted};
ghost use Rattle.resimulate.specs.UnbegunTasks.{UnbegunAreDirectives};

use effect_cells::time_passes_in_parts;
use run_data::laws::{
    cells_are_replayed, edges_come_once, endings_go_by_open_bodies, instants_rise,
    reached_states_are_of_the_model, rest_of_old_run_is_taken_over, simulation_ends,
    tasks_are_traced_by_their_frames, transitions_stand, what_has_ended_may_be_left_out,
};

/// Where nothing is noted of two settled states at one time they are alike, and so the rest of the old run is that of the new
/// one.
pub fn nothing_noted_is_alike()
    ensures alike { NothingNotedIsAlike }
    ensures rest { RestIsTakenOverUnnoted }
{
    reached_states_are_of_the_model();
    what_has_ended_may_be_left_out();
    rest_of_old_run_is_taken_over();
}

/// In front of each instant but the first stands the settled state of the one before, with what was spent until then.
pub fn instants_follow_settled_states()
    ensures { InstantsFollowSettled }
{}

/// In a settled state each task that has not begun is that of a directive of the plan, and it waits as it is planned until its
/// anchor came.
pub fn unbegun_tasks_are_directives()
    ensures { UnbegunAreDirectives }
{
    edges_come_once();
}

/// Where the frames of two runs agree on all that is open, and the plans on all that has not begun, the same tasks are live in
/// the settled states behind these frames.
pub fn frames_tell_alike()
    ensures { FramesTellAlike }
{
    reached_states_are_of_the_model();
    tasks_are_traced_by_their_frames();
    unbegun_tasks_are_directives();
    endings_go_by_open_bodies();
    what_has_ended_may_be_left_out();
}

/// Where the last changes of each cell are the same in two runs of a model, settled states at one time have the same cells.
pub fn last_changes_tell_cells()
    ensures { LastChangesTellCells }
{
    time_passes_in_parts();
    cells_are_replayed();
    simulation_ends();
    transitions_stand();
    instants_rise();
}
