//! How what a schedule made of goals is written.

ghost use Rattle.std.specs.Prelude.{◌≡◌, ◌++◌, OnOk, codes};
ghost use Rattle.json_line.specs.Parts.{data_tokens, member_if_tokens};
ghost use Rattle.report_text.specs.GoalLines.{broken_data, goal_data, open_gap_data, schedule_data, unfilled_data, unmet_data, untried_data, violating_data, why_told};

use crate::answers::ScheduleReport;
use crate::wordings::Wording;
use aerie_base::{Name, OutOfMemory, Time};
use goals::{GoalStatus, OpenGap, Rejection, Unmet};
use json_line::{JsonIn, JsonLine};
use run_data::Outcome;

/// A goal that a later goal broke.
#[tactic(auto, using(json_line::proofs::Steps::part_by_part))]
fn write_broken(line: &mut JsonLine) -> Result<(), OutOfMemory>
    ensures { OnOk result (line.new ≡ line.old ++ data_tokens broken_data) }
{
    line.begin_object()?;
    line.member("later", &true)?;
    line.end_object()
}

/// An open gap for which no start was tried.
#[tactic(auto, using(json_line::proofs::Steps::part_by_part))]
fn write_untried(line: &mut JsonLine, open_gap: &OpenGap) -> Result<(), OutOfMemory>
    ensures { OnOk result (line.new ≡ line.old ++ data_tokens (untried_data open_gap.now)) }
{
    line.begin_object()?;
    line.member("gap", &open_gap.gap.at)?;
    line.member("tried", &open_gap.tried)?;
    line.end_object()
}

/// One for which the run of the last start ended so, and does not fill it.
fn write_unfilled<'a>(
    line: &mut JsonLine,
    wording: &Wording<'a>,
    open_gap: &OpenGap,
    outcome: &Outcome,
) -> Result<(), OutOfMemory>
    ensures { OnOk result (line.new
        ≡ line.old ++ data_tokens (unfilled_data wording.now open_gap.now outcome.now)) }
{
    line.begin_object()?;
    line.member("gap", &open_gap.gap.at)?;
    line.member_in("outcome", wording, outcome)?;
    line.member("tried", &open_gap.tried)?;
    line.end_object()
}

/// One for which that run violates a constraint, at a time first.
fn write_violating(
    line: &mut JsonLine,
    open_gap: &OpenGap,
    constraint: &Name,
    time: Time,
) -> Result<(), OutOfMemory>
    ensures { OnOk result (line.new
        ≡ line.old ++ data_tokens (violating_data open_gap.now constraint.now time)) }
{
    line.begin_object()?;
    line.member("constraint", constraint)?;
    line.member("gap", &open_gap.gap.at)?;
    line.member("time", &time)?;
    line.member("tried", &open_gap.tried)?;
    line.end_object()
}

/// An open gap, by why the last start was rejected.
fn write_open<'a>(
    line: &mut JsonLine,
    wording: &Wording<'a>,
    open_gap: &OpenGap,
) -> Result<(), OutOfMemory>
    ensures { OnOk result (line.new
        ≡ line.old ++ data_tokens (open_gap_data wording.now open_gap.now open_gap.now.last)) }
{
    match &open_gap.last {
        None => write_untried(line, open_gap),
        Some(Rejection::Unfilled(outcome)) => write_unfilled(line, wording, open_gap, outcome),
        Some(Rejection::Violates { constraint, time }) => {
            write_violating(line, open_gap, constraint, *time)
        }
    }
}

/// Why a goal is unmet.
impl<'a> JsonIn<Wording<'a>> for Unmet {
    ghost data_in = { unmet_data };

    fn write_in(&self, wording: &Wording<'a>, line: &mut JsonLine) -> Result<(), OutOfMemory> {
        match self {
            Unmet::Open(open_gap) => write_open(line, wording, open_gap),
            Unmet::Broken => write_broken(line),
        }
    }
}

/// The same by its name, where it is told and there is something to tell.
#[tactic(auto, unfolding(json_line::specs::Parts::member_if_tokens))]
fn write_why_told<'a>(
    line: &mut JsonLine,
    told: bool,
    wording: &Wording<'a>,
    why: &Option<Unmet>,
) -> Result<(), OutOfMemory>
    ensures { OnOk result (line.new
        ≡ line.old ++ member_if_tokens (codes "why") (why_told told wording.now why.now)) }
{
    if told {
        return line.member_if_in("why", wording, why);
    }
    Ok(())
}

/// Of which model the goals of a schedule are, and whether it is told why they are unmet.
#[derive(Drop)]
struct GoalsTold<'b, 'a> {
    wording: &'b Wording<'a>,
    detail: bool,
}

/// What was made of a goal.
impl<'b, 'a> JsonIn<GoalsTold<'b, 'a>> for GoalStatus {
    ghost data_in = { λ told status. goal_data told.detail told.wording.now status };

    fn write_in(&self, told: &GoalsTold<'b, 'a>, line: &mut JsonLine) -> Result<(), OutOfMemory> {
        line.begin_object()?;
        line.member("goal", &self.goal)?;
        line.member("met", &self.met)?;
        line.member("placed", &self.placed)?;
        write_why_told(line, told.detail, told.wording, &self.why)?;
        line.end_object()
    }
}

/// A schedule of a branch.
pub(crate) fn write_schedule<'a>(
    line: &mut JsonLine,
    wording: &Wording<'a>,
    branch: &Name,
    report: &ScheduleReport,
) -> Result<(), OutOfMemory>
    ensures { OnOk result (line.new
        ≡ line.old ++ data_tokens (schedule_data branch.now wording.now report.now)) }
{
    let detail = report.detail;
    line.begin_object()?;
    line.member("branch", branch)?;
    line.member_in("goals", &GoalsTold { wording, detail }, &report.goals)?;
    line.member("revision", &report.revision)?;
    line.member("trials", &report.trials)?;
    line.end_object()
}
