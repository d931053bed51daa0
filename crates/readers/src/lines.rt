//! Places, from where their line begins.

ghost use Rattle.std.specs.Prelude.{◌≡◌, ◌==◌, ◌<◌, ◌≤◌, count_by, length};
ghost use Rattle.std.specs.Str.{IsCharBoundary};
ghost use Rattle.aerie_text.specs.Places.{chars_before, column_of, line_number, place_of};

use aerie_base::Place;
use aerie_text::place_on;

/// Where the line of a byte begins.
#[tactic(auto, using(crate::proofs::Feeds::behind_feed, crate::proofs::Feeds::edge_behind_feed))]
fn line_begin(text: &str, at: usize) -> usize
    requires { IsCharBoundary text.now at }
    ensures before { result ≤ at }
    ensures edge { IsCharBoundary text.now result }
    ensures first { column_of (chars_before text.now result) ≡ 1 }
{
    let bytes = text.as_bytes();
    for number in (0..at).rev() {
        if bytes[number] == b'\n' {
            return number + 1;
        }
    }
    0
}

/// How many line feeds there are among some bytes.
fn feeds(bytes: &[u8]) -> usize
    ensures { result ≡ count_by (λ byte. byte == 10) bytes.now }
{
    bytes.iter().filter(|byte| **byte == b'\n').count()
}

/// The number of the line of a byte. It counts bytes: no other character has the byte of a line feed.
fn line_at(text: &str, at: usize) -> u32
    requires short { length text.now < 4_294_967_295 }
    requires edge { IsCharBoundary text.now at }
    ensures { result ≡ line_number (chars_before text.now at) }
{
    let count = feeds(&text.as_bytes()[..at]);
    count as u32 + 1
}

/// The place of a byte. The lines before its own are passed by their line feeds, and its own alone is read.
#[tactic(auto, using(crate::proofs::Feeds::line_place))]
pub(crate) fn place_in_line(text: &str, at: usize) -> Place
    requires short { length text.now < 4_294_967_295 }
    requires edge { IsCharBoundary text.now at }
    ensures { result ≡ place_of text.now at }
{
    let begin = line_begin(text, at);
    let line = line_at(text, begin);
    place_on(text, begin, at, Place { line, column: 1 })
}
