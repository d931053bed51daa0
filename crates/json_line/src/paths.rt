//! How paths of tasks are written.

ghost use Rattle.std.specs.Prelude.{◌≡◌, ◌++◌, IfSome, OnOk, string_bytes, decimal};
ghost use Rattle.json_line.specs.PathTexts.{numbers_text, path_data, path_text};

use crate::data::{JsonData, JsonText};
use crate::lines::JsonLine;
use aerie_base::{OutOfMemory, Path};
use itoa::Buffer;

/// A path is written as the number of a directive, behind `d` where it is of a daemon, and those of children behind dots: as
/// `7.0.2` or `d0.1`.
impl JsonText for Path {
    ghost as_text = { path_text };

    fn push_to(&self, text: &mut String) -> Result<(), OutOfMemory> {
        if self.daemon() {
            text.push_str("d")?;
        }
        push_number(text, self.id())?;
        push_numbers(text, self.children())
    }
}

/// The digit of a number that has but one, as most numbers of children have.
fn one_digit(number: u32) -> Option<&'static str>
    ensures { IfSome result (λ digit. digit.now ≡ decimal number) }
{
    match number {
        0 => Some("0"),
        1 => Some("1"),
        2 => Some("2"),
        3 => Some("3"),
        4 => Some("4"),
        5 => Some("5"),
        6 => Some("6"),
        7 => Some("7"),
        8 => Some("8"),
        9 => Some("9"),
        _ => None,
    }
}

/// The digits of a number.
fn push_number(text: &mut String, number: u32) -> Result<(), OutOfMemory>
    ensures { OnOk result (string_bytes text.new ≡ string_bytes text.old ++ decimal number) }
{
    if let Some(digit) = one_digit(number) {
        return Ok(text.push_str(digit)?);
    }
    let mut buffer = Buffer::new();
    Ok(text.push_str(buffer.format(number))?)
}

/// The digits of each number, behind a dot.
fn push_numbers(text: &mut String, numbers: &[u32]) -> Result<(), OutOfMemory>
    ensures { OnOk result (string_bytes text.new ≡ string_bytes text.old ++ numbers_text numbers.now) }
{
    for number in numbers {
        text.push_str(".")?;
        push_number(text, *number)?;
    }
    Ok(())
}

impl JsonData for Path {
    ghost as_data = { path_data };

    fn write(&self, line: &mut JsonLine) -> Result<(), OutOfMemory> {
        line.text_of(self)
    }
}
