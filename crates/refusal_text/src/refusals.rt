//! Why a session was refused.

ghost use Rattle.std.specs.Prelude.{◌≡◌, IfOk, string_bytes};
ghost use Rattle.json_line.specs.Json.{line_of};
ghost use Rattle.refusal_text.specs.Refusals.{column_in, refusal_data, refused_data, row_in};

use crate::edits::AsRefusal;
use aerie_base::{OutOfMemory, Place, Text};
use dataset_in::DatasetError;
use json_line::{JsonData, JsonLine, line_of};
use plan_edit::EditError;
use std::alloc::Global;

/// Why a session was refused, or the words with which the program was called.
#[derive(Drop)]
pub struct Refusal {
    /// Its name, as `Syntax`.
    pub name: Text,
    /// Where in the text it comes.
    pub place: Option<Place>,
    /// The text of the token there.
    pub word: Option<Text>,
    /// What there is too much of.
    pub what: Option<Text>,
    /// The offset of a byte, from 0.
    pub at: Option<usize>,
    /// Which directive of the plan or which dataset it is of, from 0.
    pub number: Option<u32>,
    /// Why the directive is not added.
    pub edit: Option<EditError>,
    /// Why the text is no dataset.
    pub fault: Option<DatasetError>,
}

/// The column of a place.
fn column_in(place: Option<Place>) -> Option<u32>
    ensures { result ≡ column_in place }
{
    match place {
        Some(place) => Some(place.column),
        None => None,
    }
}

/// The line of a place.
fn row_in(place: Option<Place>) -> Option<u32>
    ensures { result ≡ row_in place }
{
    match place {
        Some(place) => Some(place.line),
        None => None,
    }
}

impl JsonData for Refusal {
    ghost as_data = { refusal_data };

    fn write(&self, line: &mut JsonLine) -> Result<(), OutOfMemory> {
        line.begin_object()?;
        line.member_if("at", &self.at)?;
        line.member_if("column", &column_in(self.place))?;
        line.member_if_in("edit", &AsRefusal, &self.edit)?;
        line.member_if_in("fault", &AsRefusal, &self.fault)?;
        line.member_if("line", &row_in(self.place))?;
        line.member("name", &self.name)?;
        line.member_if("number", &self.number)?;
        line.member_if("what", &self.what)?;
        line.member_if("word", &self.word)?;
        line.end_object()
    }
}

/// The line of a session that was refused.
#[derive(Drop)]
struct Refused<'a> {
    refusal: &'a Refusal,
}

impl<'a> JsonData for Refused<'a> {
    ghost as_data = { λ refused. refused_data (refusal_data refused.refusal.now) };

    #[tactic(auto, using(json_line::proofs::Steps::part_by_part))]
    fn write(&self, line: &mut JsonLine) -> Result<(), OutOfMemory> {
        line.begin_object()?;
        line.member("refused", self.refusal)?;
        line.end_object()
    }
}

/// The one line of output of a session that was refused: the object with the member `refused`, whose value has the
/// refusal's name and what else is there of it, a place as `line` and `column`.
pub fn refusal_line(alloc: Global, refusal: &Refusal) -> Result<String, OutOfMemory>
    ensures { IfOk result (λ line. string_bytes line ≡ line_of (refused_data (refusal_data refusal.now))) }
{
    line_of(alloc, &Refused { refusal })
}
