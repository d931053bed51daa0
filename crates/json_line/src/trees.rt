//! Lines of JSON.

ghost use Rattle.std.specs.Prelude.{◌≡◌, IfOk, OnOk, string_bytes, map, false};
ghost use Rattle.serde_json.specs.Data.{put, string};
ghost use Rattle.serde_json.specs.View.{view, members_view};
ghost use Rattle.serde_json.specs.Written.{has_float};
ghost use Rattle.json_line.specs.Json.{field_data, IsLineOf, line_of, object_of};

use aerie_base::OutOfMemory;
use serde_json::{Map, Value};
use std::alloc::Global;

/// A text as JSON.
pub fn text_value(alloc: Global, text: &str) -> Result<Value, OutOfMemory>
    ensures { IfOk result (λ value. view value ≡ string text.now) }
{
    Ok(Value::String(String::from_str(alloc, text)?))
}

/// The object of these fields. Where a name comes more than once, its last value stays.
pub fn object(alloc: Global, fields: Vec<(String, Value)>) -> Result<Value, OutOfMemory>
    ensures { IfOk result (λ value. view value ≡ object_of (map field_data fields.items)) }
{
    let mut members = Map::new(alloc);
    for (name, value) in fields {
        insert(&mut members, name, value)?;
    }
    Ok(Value::Object(members))
}

/// Puts a member into an object, in place of one of the same name.
fn insert(members: &mut Map<String, Value>, name: String, value: Value) -> Result<(), OutOfMemory>
    ensures { OnOk result (members_view members.new.entries ≡ put (string_bytes name) (view value) (members_view members.old.entries)) }
{
    match members.insert(name, value) {
        Ok(_before) => Ok(()),
        Err(_failed) => Err(OutOfMemory),
    }
}

/// The compact text of a value and a line feed, with the keys of each object in the order of their bytes. Of a value
/// with no float the text is known byte by byte, of any other that it reads back as the value.
pub fn line(alloc: Global, value: &Value) -> Result<String, OutOfMemory>
    ensures reads_back { IfOk result (λ line. IsLineOf (string_bytes line) (view value.now)) }
    ensures text { IfOk result (λ line. has_float (view value.now) ≡ false → string_bytes line ≡ line_of (view value.now)) }
{
    let mut text = value.to_string(alloc)?;
    text.push_str("\n")?;
    Ok(text)
}
