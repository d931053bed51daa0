//! The line that is printed of a command.

ghost use Rattle.std.specs.Prelude.{◌≡◌, IfOk};
ghost use Rattle.std.specs.String.{string_bytes};
ghost use Rattle.client_work.specs.Lines.{model_told as model_of_told, told_line as line_of_told};
ghost use Rattle.client_work.specs.Working.{CanBeTold};

use crate::benches::Benches;
use crate::missions::Mission;
use aerie_base::{Model, Name, OutOfMemory};
use commands::Command;
use hangar_core::Reply;
use report_text::{Answer, Heading, reply_line, report_line};
use std::alloc::Global;

/// The model that the line names, where it names one.
fn model_told<'a>(mission: &'a Mission, answer: &'a Answer) -> &'a Model
    requires { CanBeTold mission.now answer.now }
    ensures { result.now ≡ model_of_told mission.now answer.now }
{
    match answer {
        Answer::Reply(Reply::Fetched { plan, .. }) => mission.ruled(plan).model.get(),
        Answer::Report(report) => report.run.get().model().get(),
        Answer::Schedule(report) => report.model.get(),
        Answer::Expanded(report) => report.run.get().model().get(),
        _ => mission.first(),
    }
}

/// The line of a client's command with a number, of which this is told. What is found for a report is kept for the next one.
pub(crate) fn told_line(
    alloc: Global,
    mission: &Mission,
    client: &Name,
    number: u32,
    command: &Command,
    answer: &Answer,
    benches: &mut Benches,
) -> Result<String, OutOfMemory>
    requires { CanBeTold mission.now answer.now }
    ensures line { IfOk result (λ line.
        string_bytes line ≡ line_of_told mission.now client.now number command.now answer.now) }
    ensures benches { benches.new ≡ benches.old }
{
    let model = model_told(mission, answer);
    let heading = Heading {
        client,
        command: number,
        branch: command.branch(),
        model,
        named: 1 < mission.models.len(),
    };
    match answer {
        Answer::Report(report) => {
            let constraints = report.constraints.get().as_slice();
            let findings = benches.find(alloc, &report.run, constraints)?;
            let line = report_line(alloc, &heading, report, &findings)?;
            benches.keep_found(report.run.share()?, findings);
            Ok(line)
        }
        _ => reply_line(alloc, &heading, answer),
    }
}
