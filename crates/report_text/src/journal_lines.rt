//! How the journal is written.

ghost use Rattle.std.specs.Prelude.{◌≡◌, IfOk, string_bytes};
ghost use Rattle.json_line.specs.Json.{line_of};
ghost use Rattle.report_text.specs.JournalLines.{entry_data, journal_data};

use crate::alone::Alone;
use aerie_base::OutOfMemory;
use hangar_core::{Journal, Triple};
use json_line::{JsonData, JsonIn, JsonLine, line_of};
use std::alloc::Global;

/// Whose part of which command it is.
impl JsonIn<Alone> for Triple {
    ghost data_in = { λ _ entry. entry_data entry };

    fn write_in(&self, _alone: &Alone, line: &mut JsonLine) -> Result<(), OutOfMemory> {
        line.begin_array()?;
        self.client().write(line)?;
        self.command().write(line)?;
        self.part().write(line)?;
        line.end_array()
    }
}

/// Triples of entries, in their order.
#[derive(Drop)]
struct Noted<'b> {
    triples: &'b [Triple],
}

impl<'b> JsonData for Noted<'b> {
    ghost as_data = { λ noted. journal_data noted.triples.now };

    fn write(&self, line: &mut JsonLine) -> Result<(), OutOfMemory> {
        line.list_in(&Alone, self.triples)
    }
}

/// The line that tells of each entry of a journal, in their order, the client, the command and the part, each counted from
/// 0: the first line of output.
pub fn journal_line(alloc: Global, journal: &Journal) -> Result<String, OutOfMemory>
    ensures { IfOk result (λ line. string_bytes line ≡ line_of (journal_data journal.now)) }
{
    let noted = Noted {
        triples: journal.triples(),
    };
    line_of(alloc, &noted)
}
