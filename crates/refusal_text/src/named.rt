//! What is told by a name, or by a name and a number.

ghost use Rattle.std.specs.Prelude.{◌≡◌, ◌++◌, OnOk};
ghost use Rattle.json_line.specs.Parts.{data_tokens};
ghost use Rattle.refusal_text.specs.Named.{named_data, numbered_data};

use aerie_base::OutOfMemory;
use json_line::JsonLine;

/// What is told by its name alone.
#[tactic(auto, using(json_line::proofs::Steps::part_by_part))]
pub fn write_named(line: &mut JsonLine, name: &str) -> Result<(), OutOfMemory>
    ensures { OnOk result (line.new ≡ line.old ++ data_tokens (named_data name.now)) }
{
    line.begin_object()?;
    line.text_member("name", name)?;
    line.end_object()
}

/// What is told by its name and a number.
#[tactic(auto, using(json_line::proofs::Steps::part_by_part))]
pub(crate) fn write_numbered(
    line: &mut JsonLine,
    name: &str,
    number: u32,
) -> Result<(), OutOfMemory>
    ensures { OnOk result (line.new ≡ line.old ++ data_tokens (numbered_data name.now number)) }
{
    line.begin_object()?;
    line.text_member("name", name)?;
    line.member("number", &number)?;
    line.end_object()
}
