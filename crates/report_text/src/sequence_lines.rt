//! How the commands of an expansion are written.

ghost use Rattle.std.specs.Prelude.{◌≡◌, ◌++◌, OnOk};
ghost use Rattle.json_line.specs.Parts.{data_tokens};
ghost use Rattle.report_text.specs.SequenceLines.{sent_data, sent_outside_data, sequence_data, utc_data};

use crate::answers::SequenceReport;
use crate::span_lines::{Calendar, Utc};
use crate::wordings::Wording;
use aerie_base::{Name, OutOfMemory, Time};
use json_line::{JsonData, JsonIn, JsonLine};
use run_data::Run;
use seq_expand::Sent;

/// The time of a command.
#[derive(Drop)]
struct SentTime<'b> {
    sent: &'b Sent,
}

impl<'a, 'b> JsonIn<Calendar<'a>> for SentTime<'b> {
    ghost data_in = { λ calendar time. utc_data calendar.start time.sent.now.at };

    fn write_in(&self, calendar: &Calendar<'a>, line: &mut JsonLine) -> Result<(), OutOfMemory> {
        match Time::new(self.sent.at) {
            Some(time) => line.text_of(&Utc {
                start: &calendar.start,
                time,
            }),
            None => line.null(),
        }
    }
}

/// A command with a time of the plan.
impl<'a> JsonIn<Calendar<'a>> for Sent {
    ghost data_in = { λ calendar sent. sent_data calendar.wording calendar.start sent };

    fn write_in(&self, calendar: &Calendar<'a>, line: &mut JsonLine) -> Result<(), OutOfMemory> {
        line.begin_object()?;
        line.member_in("arguments", &calendar.wording, &self.arguments)?;
        line.member("at", &self.at)?;
        line.member("name", &self.name)?;
        line.member("path", &self.path)?;
        line.member_in("utc", calendar, &SentTime { sent: self })?;
        line.end_object()
    }
}

/// A command outside the plan.
impl<'a> JsonIn<Wording<'a>> for Sent {
    ghost data_in = { sent_outside_data };

    fn write_in(&self, wording: &Wording<'a>, line: &mut JsonLine) -> Result<(), OutOfMemory> {
        line.begin_object()?;
        line.member_in("arguments", wording, &self.arguments)?;
        line.member("at", &self.at)?;
        line.member("name", &self.name)?;
        line.member("path", &self.path)?;
        line.end_object()
    }
}

/// The commands of an expansion of a branch.
pub(crate) fn write_sequence<'a>(
    line: &mut JsonLine,
    calendar: &Calendar<'a>,
    branch: &Name,
    report: &SequenceReport,
) -> Result<(), OutOfMemory>
    requires { calendar.now.start ≡ report.now.start }
    ensures { OnOk result (line.new ≡ line.old ++ data_tokens (sequence_data branch.now calendar.now.wording report.now)) }
{
    let run = report.run.get().run();
    write_expanded(line, calendar, branch, report, run)
}

/// The same by the run of the report.
fn write_expanded<'a>(
    line: &mut JsonLine,
    calendar: &Calendar<'a>,
    branch: &Name,
    report: &SequenceReport,
    run: &Run,
) -> Result<(), OutOfMemory>
    requires start { calendar.now.start ≡ report.now.start }
    requires run { run.now ≡ report.now.run.run }
    ensures { OnOk result (line.new ≡ line.old ++ data_tokens (sequence_data branch.now calendar.now.wording report.now)) }
{
    let wording = &calendar.wording;
    line.begin_object()?;
    line.member("branch", branch)?;
    line.member("close", &report.sequence.close)?;
    line.member_in("commands", calendar, &report.sequence.commands)?;
    line.member_in("outcome", wording, &run.outcome)?;
    line.member_in("outside", wording, &report.sequence.outside)?;
    line.member("revision", &report.revision)?;
    line.end_object()
}
