//! How the values of std and of `aerie_base` are written.

ghost use Rattle.std.specs.Prelude.{map, string_bytes};
ghost use Rattle.std.specs.Fmt.{signed_decimal};
ghost use Rattle.serde_json.specs.Data.{array, boolean, number, string, unsigned};
ghost use Rattle.serde_json.specs.Find.{of_integer};
ghost use Rattle.serde_json.specs.View.{items_of};
ghost use Rattle.json_line.specs.Parts.{optional_data};

use crate::data::{JsonData, JsonIn};
use crate::lines::JsonLine;
use aerie_base::{List, Name, Number, OutOfMemory, Text, Time};

impl JsonData for bool {
    ghost as_data = { boolean };

    fn write(&self, line: &mut JsonLine) -> Result<(), OutOfMemory> {
        line.truth(*self)
    }
}

impl JsonData for u32 {
    ghost as_data = { λ n. number (unsigned n) };

    fn write(&self, line: &mut JsonLine) -> Result<(), OutOfMemory> {
        line.number(*self as u64)
    }
}

impl JsonData for u64 {
    ghost as_data = { λ n. number (unsigned n) };

    fn write(&self, line: &mut JsonLine) -> Result<(), OutOfMemory> {
        line.number(*self)
    }
}

impl JsonData for usize {
    ghost as_data = { λ n. number (unsigned n) };

    fn write(&self, line: &mut JsonLine) -> Result<(), OutOfMemory> {
        line.number(*self as u64)
    }
}

impl JsonData for i64 {
    ghost as_data = { λ z. number (of_integer z) };

    fn write(&self, line: &mut JsonLine) -> Result<(), OutOfMemory> {
        line.integer(*self)
    }
}

/// A number of 128 bits is written as the text of its digits.
impl JsonData for i128 {
    ghost as_data = { λ z. string (signed_decimal z) };

    fn write(&self, line: &mut JsonLine) -> Result<(), OutOfMemory> {
        line.digits(*self)
    }
}

impl JsonData for Number {
    ghost as_data = { λ z. number (of_integer z) };

    fn write(&self, line: &mut JsonLine) -> Result<(), OutOfMemory> {
        line.integer(self.get())
    }
}

/// A time is written as its microseconds.
impl JsonData for Time {
    ghost as_data = { λ micros. number (unsigned micros) };

    fn write(&self, line: &mut JsonLine) -> Result<(), OutOfMemory> {
        line.integer(self.get())
    }
}

impl JsonData for String {
    ghost as_data = { λ text. string (string_bytes text) };

    fn write(&self, line: &mut JsonLine) -> Result<(), OutOfMemory> {
        line.text(self.as_str())
    }
}

impl JsonData for Text {
    ghost as_data = { string };

    fn write(&self, line: &mut JsonLine) -> Result<(), OutOfMemory> {
        line.text(self.as_str())
    }
}

impl JsonData for Name {
    ghost as_data = { string };

    fn write(&self, line: &mut JsonLine) -> Result<(), OutOfMemory> {
        line.text(self.as_str())
    }
}

/// What is absent is written as `null`.
impl<T: JsonData> JsonData for Option<T> {
    ghost as_data = { optional_data T.as_data };

    fn write(&self, line: &mut JsonLine) -> Result<(), OutOfMemory> {
        match self {
            Some(value) => value.write(line),
            None => line.null(),
        }
    }
}

impl<T: JsonData> JsonData for List<T> {
    ghost as_data = { λ items. array (items_of (map T.as_data items)) };

    fn write(&self, line: &mut JsonLine) -> Result<(), OutOfMemory> {
        line.list(self.as_slice())
    }
}

impl<C, T: JsonIn<C>> JsonIn<C> for Option<T> {
    ghost data_in = { λ context. optional_data (T.data_in context) };

    fn write_in(&self, context: &C, line: &mut JsonLine) -> Result<(), OutOfMemory> {
        match self {
            Some(value) => value.write_in(context, line),
            None => line.null(),
        }
    }
}

impl<C, T: JsonIn<C>> JsonIn<C> for List<T> {
    ghost data_in = { λ context items. array (items_of (map (T.data_in context) items)) };

    fn write_in(&self, context: &C, line: &mut JsonLine) -> Result<(), OutOfMemory> {
        line.list_in(context, self.as_slice())
    }
}
