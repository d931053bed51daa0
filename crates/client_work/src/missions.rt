//! What clients work on.

ghost use Rattle.std.specs.Prelude.{◌≡◌, ◌<◌, length};
ghost use Rattle.client_work.specs.Lines.{first_model};
ghost use Rattle.client_work.specs.Told.{count_told};
ghost use Rattle.client_work.specs.Meanings.{ruled_by};

use aerie_base::{List, Model, Plan, Shared};
use constraints::Constraint;
use epoch_text::Start;
use goals::Goal;
use seq_expand::Sequencing;

/// A model of a session, with its rules.
#[derive(Drop)]
pub struct RuledModel {
    /// The model.
    pub model: Shared<Model>,
    /// Its constraints, in the order of the text.
    pub constraints: Shared<List<Constraint>>,
    /// Its goals, likewise.
    pub goals: Shared<List<Goal>>,
    /// Its rules of sequences.
    pub sequence: Shared<Sequencing>,
}

/// What reports tell besides.
#[derive(Clone, Copy, Debug, PartialEq, Eq, Drop)]
pub struct ReportForm {
    /// Whether they tell how many statements their simulations ran.
    pub stats: bool,
    /// Whether they tell the plan's start and duration, the cells at the end, what the constraints name and which spans meet, and
    /// those of schedules why goals are unmet.
    pub detail: bool,
}

/// What all clients of a session work on.
#[derive(Drop)]
pub struct Mission {
    /// The models of the session, in the order of the text.
    pub models: List<RuledModel>,
    /// The instant of the plans' time 0.
    pub start: Start,
    /// What the cost of a simulation may come to, at most 100,000,000.
    pub bound: u64,
    /// What reports tell besides.
    pub form: ReportForm,
}

impl Mission {
    /// The model of a plan, with its rules.
    pub(crate) fn ruled(&self, plan: &Shared<Plan>) -> &RuledModel
        requires { plan.now.model < length self.now.models }
        ensures { result.now ≡ ruled_by self.now.models plan.now }
    {
        &self.models.as_slice()[usize::from(plan.get().model)]
    }

    /// The first model.
    pub(crate) fn first(&self) -> &Model
        requires { 0 < length self.now.models }
        ensures { result.now ≡ first_model self.now }
    {
        self.models.as_slice()[0].model.get()
    }

    /// How many statements a simulation ran, where that is told.
    pub(crate) fn count(&self, statements: u64) -> Option<u64>
        ensures { result ≡ count_told self.now statements }
    {
        if self.form.stats {
            Some(statements)
        } else {
            None
        }
    }
}
