//! Places for a reader.

ghost use Rattle.std.specs.Prelude.{◌≡◌, ◌<◌, ◌≤◌, length};
ghost use Rattle.std.specs.Str.{IsCharBoundary, chars};
ghost use Rattle.aerie_text.specs.Places.{column_of, line_number, place_of};

use aerie_base::Place;

/// The line and the column of a place in a text, which is counted in bytes: lines from 1, and in the line characters
/// from 1. It takes no memory, and time linear in what stands before the place.
pub fn place_of(text: &str, at: usize) -> Place
    requires short { length text.now < 4_294_967_295 }
    requires edge { IsCharBoundary text.now at }
    ensures { result ≡ place_of text.now at }
{
    let before = &text[..at];
    Place {
        line: line_number(before),
        column: column_of(before),
    }
}

/// The place of a byte, from the place of a byte before it: it reads what stands between them alone.
pub fn place_on(text: &str, from: usize, to: usize, place: Place) -> Place
    requires short { length text.now < 4_294_967_295 }
    requires rises { from ≤ to }
    requires begins { IsCharBoundary text.now from }
    requires ends { IsCharBoundary text.now to }
    requires place { place ≡ place_of text.now from }
    ensures { result ≡ place_of text.now to }
{
    let mut line = place.line;
    let mut column = place.column;
    for c in text[from..to].chars() {
        if c == '\n' {
            line += 1;
            column = 1;
        } else {
            column += 1;
        }
    }
    Place { line, column }
}

/// 1 and the line feeds of a text.
fn line_number(text: &str) -> u32
    requires { length text.now < 4_294_967_295 }
    ensures { result ≡ line_number (chars text.now) }
{
    let count = text.chars().filter(|c| *c == '\n').count();
    count as u32 + 1
}

/// 1 and the characters behind the last line feed of a text.
fn column_of(text: &str) -> u32
    requires { length text.now < 4_294_967_295 }
    ensures { result ≡ column_of (chars text.now) }
{
    let mut column = 1;
    for c in text.chars() {
        column = if c == '\n' { 1 } else { column + 1 };
    }
    column
}
