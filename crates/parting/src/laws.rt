//! Laws about a simulation that begins in the middle of another one, each the promise of a function without a body.

ghost use Rattle.parting.specs.LiveExchanges.{LiveIsExchanged, PrunedIsExchanged};
ghost use Rattle.parting.specs.PlainLateness.{PlainlyLateIsLate};
ghost use Rattle.parting.specs.Resuming.{Resumes, SameJobs};
ghost use Rattle.parting.specs.UnbegunDirectives.{HaveNotStarted};

use run_data::laws::{
    frames_of_batches_are_of_tasks, plans_that_differ_late_run_side_by_side,
    reached_states_are_of_the_model, weight_falls,
};

/// The simulation of an edited plan may begin at any state of the old simulation before the time at which a directive that
/// differs is due: with these directives exchanged it is a state of the new simulation, where the same jobs are ready. Until then
/// none of these directives has begun. A directive without an anchor that starts no earlier is late enough.
pub fn edited_plans_resume()
    ensures resumes { Resumes }
    ensures jobs { SameJobs }
    ensures unbegun { HaveNotStarted }
    ensures late { PlainlyLateIsLate }
{
    plans_that_differ_late_run_side_by_side();
    reached_states_are_of_the_model();
    frames_of_batches_are_of_tasks();
    weight_falls();
}

/// An engine that leaves out all tasks that have ended may exchange the directives that differ in what it holds.
pub fn live_tasks_are_exchanged()
    ensures live { LiveIsExchanged }
    ensures pruned { PrunedIsExchanged }
{
    reached_states_are_of_the_model();
}
