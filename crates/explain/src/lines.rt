//! Lines and characters of a text, by their numbers.

ghost use Rattle.std.specs.Prelude.{◌≡◌, ◌≤◌, length};
ghost use Rattle.std.specs.List.{prefix_len};
ghost use Rattle.aerie_text.specs.Gaps.{is_in_line};
ghost use Rattle.explain.specs.Lines.{behind_characters as behind_characters_by, behind_lines as behind_lines_by, line_in_front as first_line_by};

use crate::shown::goes_on;

/// What stands behind so many line feeds.
pub(crate) fn behind_lines(bytes: &[u8], lines: usize) -> &[u8]
    ensures { result.now ≡ behind_lines_by lines bytes.now }
{
    let mut left = lines;
    for (i, byte) in bytes.iter().enumerate() {
        if left == 0 {
            let (_, rest) = bytes.split_at(i);
            return rest;
        }
        if *byte == b'\n' {
            left -= 1;
        }
    }
    &[]
}

/// What stands behind so many characters.
pub(crate) fn behind_characters(bytes: &[u8], count: usize) -> &[u8]
    ensures { result.now ≡ behind_characters_by count bytes.now }
{
    let mut left = count;
    for (i, byte) in bytes.iter().enumerate() {
        if !goes_on(*byte) {
            if left == 0 {
                let (_, rest) = bytes.split_at(i);
                return rest;
            }
            left -= 1;
        }
    }
    &[]
}

/// How many bytes stand before the end of the line.
fn line_len(bytes: &[u8]) -> usize
    ensures len { result ≡ prefix_len is_in_line bytes.now }
    ensures within { result ≤ length bytes.now }
{
    bytes.iter().take_while(|byte| **byte != b'\n').count()
}

/// The text up to the end of its first line.
pub(crate) fn line_in_front(bytes: &[u8]) -> &[u8]
    ensures { result.now ≡ first_line_by bytes.now }
{
    let (line, _) = bytes.split_at(line_len(bytes));
    line
}
