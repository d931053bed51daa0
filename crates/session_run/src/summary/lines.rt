//! The line of a summary.

ghost use Rattle.std.specs.Prelude.{◌≡◌, IfOk, string_bytes};
ghost use Rattle.json_line.specs.Json.{line_of as line_of_by};
ghost use Rattle.session_run.specs.summary.SummaryLines.{summary_data};

use crate::summary::Summary;
use aerie_base::OutOfMemory;
use json_line::{JsonData, JsonLine, line_of};
use std::alloc::Global;

/// What is counted of a generated session.
#[derive(Clone, Copy)]
struct Summarized {
    number: u32,
    clients: usize,
    summary: Summary,
}

impl JsonData for Summarized {
    ghost as_data = { λ told. summary_data told.number told.clients told.summary };

    fn write(&self, line: &mut JsonLine) -> Result<(), OutOfMemory> {
        line.begin_object()?;
        line.member("clients", &self.clients)?;
        line.member("commands", &self.summary.commands)?;
        line.member("completed", &self.summary.completed)?;
        line.member("number", &self.number)?;
        line.member("placed", &self.summary.placed)?;
        line.member("refused", &self.summary.refused)?;
        line.member("spans", &self.summary.spans)?;
        line.member("stopped", &self.summary.stopped)?;
        line.member("violations", &self.summary.violations)?;
        line.end_object()
    }
}

/// The line that tells what is counted of a generated session with so many directives and clients.
pub fn summary_line(
    alloc: Global,
    number: u32,
    clients: usize,
    summary: Summary,
) -> Result<String, OutOfMemory>
    ensures { IfOk result (λ line. string_bytes line ≡ line_of_by (summary_data number clients summary)) }
{
    let told = Summarized {
        number,
        clients,
        summary,
    };
    line_of(alloc, &told)
}
