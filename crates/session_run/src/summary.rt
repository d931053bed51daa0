//! What is counted of the answers to the commands of a session.

ghost use Rattle.std.specs.Prelude.{◌≡◌, ◌∷◌, ◌++◌, [], List, OnOk};
ghost use Rattle.report_text.specs.declared.answers.Answer.{Answer as AnswerView};
ghost use Rattle.session_run.specs.summary.Summaries.{HasItsConstraints, summary_of};

mod counting;
mod lines;

use aerie_base::OutOfMemory;
use counting::counted;
pub use lines::summary_line;
use report_text::Answer;
use std::alloc::Global;

/// What is counted of the answers to commands. Each count stands still at 2^64 - 1.
#[derive(Clone, Copy, Debug, Drop)]
pub struct Summary {
    /// The commands.
    pub commands: u64,
    /// The simulations that completed.
    pub completed: u64,
    /// The directives that schedules list as placed.
    pub placed: u64,
    /// The commands that were refused.
    pub refused: u64,
    /// The spans of all simulations.
    pub spans: u64,
    /// The simulations that did not complete.
    pub stopped: u64,
    /// The violations that are listed of all simulations.
    pub violations: u64,
}

impl Summary {
    /// Nothing is counted yet.
    pub fn new() -> Summary
        ensures { result ≡ summary_of [] }
    {
        Summary {
            commands: 0,
            completed: 0,
            placed: 0,
            refused: 0,
            spans: 0,
            stopped: 0,
            violations: 0,
        }
    }

    /// Counts what is told of one command more. After want of memory nothing is counted.
    pub fn note(&mut self, alloc: Global, answer: &Answer) -> Result<(), OutOfMemory>
        requires { HasItsConstraints answer.now }
        ensures { OnOk result ((answers : List AnswerView) → self.old ≡ summary_of answers
            → self.new ≡ summary_of (answers ++ answer.now ∷ [])) }
    {
        let one = counted(alloc, answer)?;
        *self = Summary {
            commands: self.commands.saturating_add(one.commands),
            completed: self.completed.saturating_add(one.completed),
            placed: self.placed.saturating_add(one.placed),
            refused: self.refused.saturating_add(one.refused),
            spans: self.spans.saturating_add(one.spans),
            stopped: self.stopped.saturating_add(one.stopped),
            violations: self.violations.saturating_add(one.violations),
        };
        Ok(())
    }
}
