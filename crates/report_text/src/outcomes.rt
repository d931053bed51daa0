//! How the outcome of a run is written.

ghost use Rattle.std.specs.Prelude.{◌≡◌, ◌++◌, OnOk};
ghost use Rattle.json_line.specs.Parts.{data_tokens};
ghost use Rattle.report_text.specs.Outcomes.{failed_data, failure_data, fault_word, moment_data, outcome_data, over_cell_data, over_task_data, step_limit_data};

use crate::wordings::Wording;
use aerie_base::{Fault, OutOfMemory, Path, Time};
use json_line::{JsonData, JsonIn, JsonLine};
use run_data::{Outcome, Who};

/// The word of a fault.
fn fault_word(fault: Fault) -> &'static str
    ensures { result.now ≡ fault_word fault }
{
    match fault {
        Fault::Range => "Range",
        Fault::Divide => "Divide",
        Fault::NegativeDelay => "NegativeDelay",
        Fault::TooDeep => "TooDeep",
    }
}

/// A fault at a time, with what it befell.
#[derive(Drop)]
struct Failure<'b> {
    time: Time,
    who: &'b Who,
    fault: Fault,
}

impl<'a, 'b> JsonIn<Wording<'a>> for Failure<'b> {
    ghost data_in = { λ model failure. failure_data model failure.time failure.fault failure.who.now };

    fn write_in(&self, wording: &Wording<'a>, line: &mut JsonLine) -> Result<(), OutOfMemory> {
        match self.who {
            Who::Task(path) => write_of_task(line, wording, self.time, self.fault, path),
            Who::Cell(cell) => write_of_cell(line, wording, self.time, self.fault, *cell),
        }
    }
}

/// A fault of a task.
fn write_of_task<'a>(
    line: &mut JsonLine,
    wording: &Wording<'a>,
    time: Time,
    fault: Fault,
    path: &Path,
) -> Result<(), OutOfMemory>
    ensures { OnOk result (line.new ≡ line.old ++ data_tokens (over_task_data time fault path.now)) }
{
    line.begin_object()?;
    line.text_member("fault", fault_word(fault))?;
    line.member("task", path)?;
    line.member("time", &time)?;
    line.end_object()
}

/// A fault of a cell that left its range.
fn write_of_cell<'a>(
    line: &mut JsonLine,
    wording: &Wording<'a>,
    time: Time,
    fault: Fault,
    cell: u16,
) -> Result<(), OutOfMemory>
    ensures { OnOk result (line.new ≡ line.old ++ data_tokens (over_cell_data wording.now time fault cell)) }
{
    line.begin_object()?;
    line.text_member("cell", wording.cell_name(cell))?;
    line.text_member("fault", fault_word(fault))?;
    line.member("time", &time)?;
    line.end_object()
}

/// The outcome of a run that failed.
#[tactic(auto, using(json_line::proofs::Steps::part_by_part))]
fn write_failed<'a, 'b>(
    line: &mut JsonLine,
    wording: &Wording<'a>,
    failure: &Failure<'b>,
) -> Result<(), OutOfMemory>
    ensures { OnOk result (line.new ≡ line.old ++ data_tokens (failed_data (failure_data wording.now failure.now.time failure.now.fault failure.now.who.now))) }
{
    line.begin_object()?;
    line.member_in("failed", wording, failure)?;
    line.end_object()
}

/// A time by the name `time`.
#[derive(Drop)]
struct Moment {
    time: Time,
}

impl JsonData for Moment {
    ghost as_data = { λ moment. moment_data moment.time };

    #[tactic(auto, using(json_line::proofs::Steps::part_by_part))]
    fn write(&self, line: &mut JsonLine) -> Result<(), OutOfMemory> {
        line.begin_object()?;
        line.member("time", &self.time)?;
        line.end_object()
    }
}

/// The outcome of a run that came to its bound.
#[tactic(auto, using(json_line::proofs::Steps::part_by_part))]
fn write_step_limit(line: &mut JsonLine, time: Time) -> Result<(), OutOfMemory>
    ensures { OnOk result (line.new ≡ line.old ++ data_tokens (step_limit_data time)) }
{
    line.begin_object()?;
    line.member("steplimit", &Moment { time })?;
    line.end_object()
}

impl<'a> JsonIn<Wording<'a>> for Outcome {
    ghost data_in = { outcome_data };

    fn write_in(&self, wording: &Wording<'a>, line: &mut JsonLine) -> Result<(), OutOfMemory> {
        match self {
            Outcome::Completed => line.text("completed"),
            Outcome::Failed { time, who, fault } => write_failed(
                line,
                wording,
                &Failure {
                    time: *time,
                    who,
                    fault: *fault,
                },
            ),
            Outcome::StepLimit { time } => write_step_limit(line, *time),
        }
    }
}
