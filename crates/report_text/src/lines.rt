//! What the program answers to a command.

ghost use Rattle.std.specs.Prelude.{◌≡◌, ◌++◌, IfOk, OnOk, codes, string_bytes};
ghost use Rattle.json_line.specs.Json.{line_of};
ghost use Rattle.findings.specs.Found.{AreFindings};
ghost use Rattle.json_line.specs.Parts.{data_tokens, member_tokens};
ghost use Rattle.report_text.specs.GoalLines.{schedule_data};
ghost use Rattle.report_text.specs.Replies.{IsNoReport, answer_member, reply_data};
ghost use Rattle.report_text.specs.Reports.{report_data};
ghost use Rattle.report_text.specs.SequenceLines.{sequence_data};
ghost use Rattle.report_text.specs.declared.answers.Answer.TheVariants as answer_by;

use crate::answers::{Answer, Report, ScheduleReport, SequenceReport};
use crate::goal_lines::write_schedule;
use crate::reply_lines::{MergeTold, refuse, write_reply};
use crate::reports::write_report;
use crate::sequence_lines::write_sequence;
use crate::span_lines::Calendar;
use crate::wordings::Wording;
use aerie_base::{Model, Name, OutOfMemory};
use findings::Findings;
use json_line::JsonLine;
use refusal_text::AsRefusal;
use std::alloc::Global;

/// Of which command a line tells, and of which model.
#[derive(Drop)]
pub struct Heading<'a> {
    /// The client.
    pub client: &'a Name,
    /// The number of the command among those of the client, counted from 0.
    pub command: u32,
    /// The branch that the command names first.
    pub branch: &'a Name,
    /// The model of the plan that was shown, simulated, scheduled or expanded; other answers do not tell of it.
    pub model: &'a Model,
    /// Whether the model is named.
    pub named: bool,
}

/// The report of a simulation, under `ok`.
#[tactic(auto, unfolding(json_line::specs::Parts::member_tokens))]
fn write_report_member<'a>(
    line: &mut JsonLine,
    alloc: Global,
    heading: &Heading<'a>,
    report: &Report,
    findings: &Findings,
) -> Result<(), OutOfMemory>
    requires model { report.now.run.model ≡ heading.now.model.now }
    requires found { AreFindings heading.now.model.now report.now.run.run report.now.constraints findings.now }
    ensures { OnOk result (line.new ≡ line.old ++ member_tokens (codes "ok") (report_data heading.now.branch.now heading.now.model.now heading.now.named report.now)) }
{
    let calendar = Calendar {
        wording: Wording::new(alloc, heading.model)?,
        start: report.start,
    };
    line.key("ok")?;
    write_report(
        line,
        &calendar,
        heading.branch,
        heading.named,
        report,
        findings,
    )
}

/// A schedule, under `ok`.
#[tactic(auto, unfolding(json_line::specs::Parts::member_tokens))]
fn write_schedule_member<'a>(
    line: &mut JsonLine,
    alloc: Global,
    heading: &Heading<'a>,
    report: &ScheduleReport,
) -> Result<(), OutOfMemory>
    ensures { OnOk result (line.new
        ≡ line.old ++ member_tokens
        (codes "ok") (schedule_data heading.now.branch.now heading.now.model.now report.now)) }
{
    let wording = Wording::new(alloc, heading.model)?;
    line.key("ok")?;
    write_schedule(line, &wording, heading.branch, report)
}

/// The commands of an expansion, under `ok`.
#[tactic(auto, unfolding(json_line::specs::Parts::member_tokens))]
fn write_sequence_member<'a>(
    line: &mut JsonLine,
    alloc: Global,
    heading: &Heading<'a>,
    report: &SequenceReport,
) -> Result<(), OutOfMemory>
    ensures { OnOk result (line.new ≡ line.old ++ member_tokens (codes "ok") (sequence_data heading.now.branch.now heading.now.model.now report.now)) }
{
    let calendar = Calendar {
        wording: Wording::new(alloc, heading.model)?,
        start: report.start,
    };
    line.key("ok")?;
    write_sequence(line, &calendar, heading.branch, report)
}

/// What came of a command that was not a simulation, or why nothing did.
fn write_answer<'a>(
    line: &mut JsonLine,
    alloc: Global,
    heading: &Heading<'a>,
    answer: &Answer,
) -> Result<(), OutOfMemory>
    requires { IsNoReport answer.now }
    ensures { OnOk result (line.new ≡ line.old ++ member_tokens (answer_member heading.now.branch.now heading.now.model.now heading.now.named answer.now).0 (answer_member heading.now.branch.now heading.now.model.now heading.now.named answer.now).1) }
{
    let branch = heading.branch;
    match answer {
        Answer::Reply(reply) => {
            write_reply(line, alloc, branch, heading.model, heading.named, reply)
        }
        Answer::Report(_) => unreachable!(),
        Answer::Schedule(report) => write_schedule_member(line, alloc, heading, report),
        Answer::Merge { revision, added } => line.member(
            "ok",
            &MergeTold {
                branch,
                added,
                revision: *revision,
            },
        ),
        Answer::OtherModel => refuse(line, "OtherModel"),
        Answer::MergeRefused(error) => line.member_in("refused", &AsRefusal, error),
        Answer::Expanded(report) => write_sequence_member(line, alloc, heading, report),
    }
}

/// The line that tells what the program answered to a command, unless that is the report of a simulation: under `ok` what
/// came of it, or under `refused` why nothing did.
pub fn reply_line<'a>(
    alloc: Global,
    heading: &Heading<'a>,
    reply: &Answer,
) -> Result<String, OutOfMemory>
    requires { IsNoReport reply.now }
    ensures { IfOk result (λ line. string_bytes line ≡ line_of (reply_data heading.now.client.now heading.now.command heading.now.branch.now heading.now.model.now heading.now.named reply.now)) }
{
    let mut line = JsonLine::new(alloc);
    write_reply_value(&mut line, alloc, heading, reply)?;
    line.finish()
}

/// The line that tells the report of a simulation, under `ok`, with what the caller has found on its run.
pub fn report_line<'a>(
    alloc: Global,
    heading: &Heading<'a>,
    report: &Report,
    findings: &Findings,
) -> Result<String, OutOfMemory>
    requires model { report.now.run.model ≡ heading.now.model.now }
    requires found { AreFindings heading.now.model.now report.now.run.run report.now.constraints findings.now }
    ensures { IfOk result (λ line. string_bytes line ≡ line_of (reply_data heading.now.client.now heading.now.command heading.now.branch.now heading.now.model.now heading.now.named (answer_by.Report report.now))) }
{
    let mut line = JsonLine::new(alloc);
    write_report_value(&mut line, alloc, heading, report, findings)?;
    line.finish()
}

/// The value of the line of an answer.
fn write_reply_value<'a>(
    line: &mut JsonLine,
    alloc: Global,
    heading: &Heading<'a>,
    reply: &Answer,
) -> Result<(), OutOfMemory>
    requires { IsNoReport reply.now }
    ensures { OnOk result (line.new ≡ line.old ++ data_tokens (reply_data heading.now.client.now heading.now.command heading.now.branch.now heading.now.model.now heading.now.named reply.now)) }
{
    line.begin_object()?;
    line.member("client", heading.client)?;
    line.member("command", &heading.command)?;
    write_answer(line, alloc, heading, reply)?;
    line.end_object()
}

/// The value of the line of a report.
fn write_report_value<'a>(
    line: &mut JsonLine,
    alloc: Global,
    heading: &Heading<'a>,
    report: &Report,
    findings: &Findings,
) -> Result<(), OutOfMemory>
    requires model { report.now.run.model ≡ heading.now.model.now }
    requires found { AreFindings heading.now.model.now report.now.run.run report.now.constraints findings.now }
    ensures { OnOk result (line.new ≡ line.old ++ data_tokens (reply_data heading.now.client.now heading.now.command heading.now.branch.now heading.now.model.now heading.now.named (answer_by.Report report.now))) }
{
    line.begin_object()?;
    line.member("client", heading.client)?;
    line.member("command", &heading.command)?;
    write_report_member(line, alloc, heading, report, findings)?;
    line.end_object()
}
