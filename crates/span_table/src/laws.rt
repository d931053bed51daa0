//! A law about fresh runs: a directive without an anchor begins when it is planned.

ghost use Rattle.span_table.specs.PlannedSpans.{PlannedHaveSpans};

use run_data::laws::{frames_of_batches_are_of_tasks, tasks_are_put_by_path};

/// On a completed fresh run of a plan of a valid model, each directive without an anchor has a span, with its type and its
/// arguments, which starts where the directive stands.
pub fn planned_directives_have_spans()
    ensures { PlannedHaveSpans }
{
    frames_of_batches_are_of_tasks();
    tasks_are_put_by_path();
}
