//! A line that is being written.

ghost use Rattle.std.specs.Prelude.{◌≡◌, ◌++◌, ◌∷◌, [], IfOk, OnOk, string_bytes};
ghost use Rattle.std.specs.Fmt.{signed_decimal};
ghost use Rattle.json.specs.Token.{begin_array, begin_object, end_array, end_object, key};
ghost use Rattle.serde_json.specs.Data.{Data, boolean, null, number, string, unsigned};
ghost use Rattle.serde_json.specs.Find.{of_integer};
ghost use Rattle.serde_json.specs.Written.{compact_text};
ghost use Rattle.json_line.specs.Parts.{data_tokens};

use crate::data::JsonText;
use aerie_base::OutOfMemory;
use itoa::Buffer;
use json::Writer;
use std::alloc::Global;
use std::marker::Model;

/// A line of JSON that is being written. Contracts see the tokens so far. Commas, colons, digits and escapes are the kit's
/// matter; that a value follows each key and each bracket is closed is the writer's, and `finish` asks for it.
///
/// After want of memory nothing is known of the line, and it is to be dropped.
#[derive(Drop)]
pub struct JsonLine {
    out: Writer,
    text: String,
}

impl Model for JsonLine {
    ghost use Rattle.std.specs.Prelude.{◌≡◌, List, []};
    ghost use Rattle.json.specs.Token.{Token, tokens_code};

    ghost Value = { List Token };

    ghost coded = { tokens_code };

    ghost view = { λ line. line.out.tokens };

    ghost invariant = { λ line. line.out.before ≡ [] };
}

impl JsonLine {
    /// A line of which nothing is written. It takes no memory yet.
    pub fn new(alloc: Global) -> JsonLine
        ensures { result ≡ [] }
    {
        JsonLine {
            out: Writer::new(Vec::new(alloc)),
            text: String::new(alloc),
        }
    }

    /// The bracket that opens an object.
    pub fn begin_object(&mut self) -> Result<(), OutOfMemory>
        ensures { OnOk result (self.new ≡ self.old ++ begin_object ∷ []) }
    {
        Ok(self.out.begin_object()?)
    }

    /// The bracket that ends an object.
    pub fn end_object(&mut self) -> Result<(), OutOfMemory>
        ensures { OnOk result (self.new ≡ self.old ++ end_object ∷ []) }
    {
        Ok(self.out.end_object()?)
    }

    /// The bracket that opens an array.
    pub fn begin_array(&mut self) -> Result<(), OutOfMemory>
        ensures { OnOk result (self.new ≡ self.old ++ begin_array ∷ []) }
    {
        Ok(self.out.begin_array()?)
    }

    /// The bracket that ends an array.
    pub fn end_array(&mut self) -> Result<(), OutOfMemory>
        ensures { OnOk result (self.new ≡ self.old ++ end_array ∷ []) }
    {
        Ok(self.out.end_array()?)
    }

    /// The name of a member, whose value is to be written next.
    pub fn key(&mut self, name: &str) -> Result<(), OutOfMemory>
        ensures { OnOk result (self.new ≡ self.old ++ key name.now ∷ []) }
    {
        Ok(self.out.key(name)?)
    }

    /// `null`.
    #[tactic(auto, unfolding(crate::specs::Parts::data_tokens))]
    pub fn null(&mut self) -> Result<(), OutOfMemory>
        ensures { OnOk result (self.new ≡ self.old ++ data_tokens null) }
    {
        Ok(self.out.null()?)
    }

    /// `true` or `false`.
    #[tactic(auto, unfolding(crate::specs::Parts::data_tokens))]
    pub fn truth(&mut self, truth: bool) -> Result<(), OutOfMemory>
        ensures { OnOk result (self.new ≡ self.old ++ data_tokens (boolean truth)) }
    {
        Ok(self.out.boolean(truth)?)
    }

    /// A natural number.
    #[tactic(auto, unfolding(crate::specs::Parts::data_tokens))]
    pub fn number(&mut self, n: u64) -> Result<(), OutOfMemory>
        ensures { OnOk result (self.new ≡ self.old ++ data_tokens (number (unsigned n))) }
    {
        Ok(self.out.u64(n)?)
    }

    /// A whole number.
    #[tactic(auto, unfolding(crate::specs::Parts::data_tokens))]
    pub fn integer(&mut self, z: i64) -> Result<(), OutOfMemory>
        ensures { OnOk result (self.new ≡ self.old ++ data_tokens (number (of_integer z))) }
    {
        Ok(self.out.i64(z)?)
    }

    /// A text, between quotation marks and with escapes where they are needed.
    #[tactic(auto, unfolding(crate::specs::Parts::data_tokens))]
    pub fn text(&mut self, text: &str) -> Result<(), OutOfMemory>
        ensures { OnOk result (self.new ≡ self.old ++ data_tokens (string text.now)) }
    {
        Ok(self.out.string(text)?)
    }

    /// A text that is put together of parts. One buffer serves all such texts of the line.
    #[tactic(auto, unfolding(crate::specs::Parts::data_tokens))]
    pub fn text_of<T: JsonText>(&mut self, value: &T) -> Result<(), OutOfMemory>
        ensures { OnOk result (self.new ≡ self.old ++ data_tokens (string (T.as_text value.now))) }
    {
        self.text.clear();
        value.push_to(&mut self.text)?;
        Ok(self.out.string(self.text.as_str())?)
    }

    /// The text of a whole number's decimal digits, with `-` where it is negative: for numbers that may be too large for a
    /// number of JSON.
    pub fn digits(&mut self, z: i128) -> Result<(), OutOfMemory>
        ensures { OnOk result (self.new ≡ self.old ++ data_tokens (string (signed_decimal z))) }
    {
        let mut buffer = Buffer::new();
        self.text(buffer.format(z))
    }

    /// The text of what was written, and a line feed, where that is the whole of some data.
    pub fn finish(self) -> Result<String, OutOfMemory>
        ensures { (d : Data) → self ≡ data_tokens d → IfOk result (λ line. string_bytes line ≡ compact_text d ++ 10 ∷ []) }
    {
        let JsonLine { out, .. } = self;
        let bytes = out.into_inner();
        let mut text = unsafe { String::from_utf8_unchecked(bytes) };
        text.push_str("\n")?;
        Ok(text)
    }
}
