//! Laws, each the promise of a function without a body.

mod alike;
mod batches;
mod fits;
mod live;
mod reached;
mod runs;
mod steps;
mod tables;
mod traces;
mod waves;

pub use alike::{
    alike_states_go_on_alike, edges_come_once, plans_that_differ_late_run_side_by_side,
    rest_of_old_run_is_taken_over,
};
pub use batches::{
    made_depends_on_reads, order_does_not_matter, same_by_generations, tree_is_rebuilt,
};
pub use fits::{fitting_frames_are_the_batch, instants_begin_untouched};
pub use live::what_has_ended_may_be_left_out;
pub use reached::{
    frames_of_batches_are_of_tasks, reached_states_are_of_the_model, reached_states_are_quiet,
    weight_falls,
};
pub use runs::{
    cells_are_replayed, fresh_runs, instants_rise, one_fresh_run, simulation_ends,
    transitions_stand,
};
pub use steps::{
    budget_decides_the_end_alone, depends_on_reads, effects_in_turn, records_are_found_by_equality,
    results_are_as_declared, statements_are_typed, states_stand_in_bodies, steps_are_small,
    steps_are_valid_records, steps_keep_the_model, waits_go_by_the_cells,
};
pub use tables::{
    due_splits, endings_go_by_open_bodies, ready_by_index, tables_stay_in_order,
    tasks_are_put_by_path, tasks_go_on_in_turn, tasks_stand_by_number,
};
pub use traces::tasks_are_traced_by_their_frames;
pub use waves::waves_go_by_what_is_left;
