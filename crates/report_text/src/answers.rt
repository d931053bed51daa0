//! What the program answers to commands.

use aerie_base::{List, Model, Shared};
use constraints::Constraint;
use epoch_text::Start;
use goals::GoalStatus;
use hangar_core::Reply;
use plan_merge::MergeError;
use run_data::Kept;
use seq_expand::Sequence;

/// What the program answers to a command.
#[derive(Drop)]
pub enum Answer {
    /// What the workspace answered; `Fetched` where the plan is shown.
    Reply(Reply),
    /// The report of a simulation.
    Report(Report),
    /// A schedule that was placed.
    Schedule(ScheduleReport),
    /// A merge that was placed.
    Merge {
        /// The new revision of the target.
        revision: u64,
        /// The ids of the directives that it added.
        added: List<u32>,
    },
    /// The plans of a merge are not all of one model.
    OtherModel,
    /// The plans of a merge cannot be merged.
    MergeRefused(MergeError),
    /// The commands of an expansion.
    Expanded(SequenceReport),
}

/// A simulation of a branch. Its plan is its run's.
#[derive(Drop)]
pub struct Report {
    /// The instant of the plan's time 0.
    pub start: Start,
    /// The run.
    pub run: Shared<Kept>,
    /// The constraints of the model.
    pub constraints: Shared<List<Constraint>>,
    /// The revision that was fetched.
    pub revision: u64,
    /// Whether the run was kept on the branch.
    pub attached: bool,
    /// How many statements were simulated, where that was asked for.
    pub statements: Option<u64>,
    /// Whether the plan's start and duration, the cells at the run's reach, what the constraints name and which spans meet are
    /// told.
    pub detail: bool,
}

/// A schedule of a branch.
#[derive(Drop)]
pub struct ScheduleReport {
    /// The model of the plan.
    pub model: Shared<Model>,
    /// The new revision.
    pub revision: u64,
    /// What was made of each goal, in the order of the goals.
    pub goals: List<GoalStatus>,
    /// How many plans were tried.
    pub trials: u32,
    /// Whether it is told why goals are unmet.
    pub detail: bool,
}

/// An expansion of a branch.
#[derive(Drop)]
pub struct SequenceReport {
    /// The instant of the plan's time 0.
    pub start: Start,
    /// The run whose spans gave the commands.
    pub run: Shared<Kept>,
    /// The commands.
    pub sequence: Sequence,
    /// The revision that was fetched.
    pub revision: u64,
}
