//! White space and comments.

ghost use Rattle.std.specs.Prelude.{◌≡◌, ◌≤◌, length};
ghost use Rattle.std.specs.List.{prefix_len};
ghost use Rattle.aerie_text.specs.Gaps.{begins_comment, gap_len, is_in_line};

use crate::bytes::white_len;

/// How many bytes of white space or of one comment stand in front.
pub fn gap_len(bytes: &[u8]) -> usize
    ensures len { result ≡ gap_len bytes.now }
    ensures within { result ≤ length bytes.now }
{
    if begins_comment(bytes) {
        line_len(bytes)
    } else {
        white_len(bytes)
    }
}

/// Whether a comment begins here.
fn begins_comment(bytes: &[u8]) -> bool
    ensures { result ≡ begins_comment bytes.now }
{
    matches!(bytes, [b'/', b'/', ..])
}

/// How many bytes stand before the end of the line.
fn line_len(bytes: &[u8]) -> usize
    ensures len { result ≡ prefix_len is_in_line bytes.now }
    ensures within { result ≤ length bytes.now }
{
    bytes.iter().take_while(|byte| **byte != b'\n').count()
}
