//! One step of a task, run over flat code: the frame of a job, exactly as its definition says.
#![tactic(auto)]

mod acting;
mod arguments;
mod cells_read;
mod direct;
mod ends;
mod filling;
mod fresh;
mod fresh_wave;
mod one_by_one;
mod read_flags;
mod room;
mod running;
mod sight;
mod statement_parts;
mod step_end;
mod step_state;
mod written_cells;

pub use direct::Direct;
pub use fresh::Fresh;
pub use fresh_wave::FreshWave;
pub use one_by_one::run_jobs;
pub use room::Room;
pub use running::run_step;
pub use step_end::StepEnd;
