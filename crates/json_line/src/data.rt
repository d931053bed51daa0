//! What is written as JSON.

ghost use Rattle.std.specs.Prelude.{◌≡◌, ◌++◌, List, ℕ, OnOk, string_bytes};
ghost use Rattle.serde_json.specs.Data.{Data};
ghost use Rattle.json_line.specs.Parts.{data_tokens, member_tokens};

use crate::lines::JsonLine;
use aerie_base::OutOfMemory;

/// What is written as one value of JSON.
pub trait JsonData {
    /// The value that it is written as.
    ghost as_data: { Self → Data };

    /// Writes it.
    fn write(&self, line: &mut JsonLine) -> Result<(), OutOfMemory>
        ensures { OnOk result (line.new ≡ line.old ++ data_tokens (as_data self.now)) };
}

/// What is written as one member of an object.
pub trait JsonMember {
    /// The name and the value that it is written as.
    ghost as_member: { Self → List ℕ × Data };

    /// Writes it.
    fn write_member(&self, line: &mut JsonLine) -> Result<(), OutOfMemory>
        ensures { OnOk result (line.new ≡ line.old ++ member_tokens (as_member self.now).0 (as_member self.now).1) };
}

/// What is written as one value of JSON where it is known what it belongs to, as a number by the names of a model.
pub trait JsonIn<C> {
    /// The value that it is written as.
    ghost data_in: { C → Self → Data };

    /// Writes it.
    fn write_in(&self, context: &C, line: &mut JsonLine) -> Result<(), OutOfMemory>
        ensures { OnOk result (line.new ≡ line.old ++ data_tokens (data_in context.now self.now)) };
}

/// What is written as a text that is put together of parts.
pub trait JsonText {
    /// The bytes of the text.
    ghost as_text: { Self → List ℕ };

    /// Appends the text.
    fn push_to(&self, text: &mut String) -> Result<(), OutOfMemory>
        ensures { OnOk result (string_bytes text.new ≡ string_bytes text.old ++ as_text self.now) };
}
