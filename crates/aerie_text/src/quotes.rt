//! Texts between marks.

ghost use Rattle.std.specs.Prelude.{◌≡◌, ◌==◌, ◌≤◌, length};
ghost use Rattle.std.specs.List.{prefix_len};
ghost use Rattle.aerie_text.specs.Bytes.{begins_with};
ghost use Rattle.aerie_text.specs.Quotes.{backquote, enclosed_len, is_quotable, is_raw, quotation_mark};

/// How long a text between quotation marks is, with both, behind the first of which these bytes stand. It does not
/// go over the end of its line.
pub fn quoted_len(bytes: &[u8]) -> Option<usize>
    ensures { result ≡ enclosed_len is_quotable quotation_mark bytes.now }
{
    let count = quotable_len(bytes);
    if begins_with(&bytes[count..], b'"') {
        Some(count + 2)
    } else {
        None
    }
}

/// How long a text between backquotes is, with both, behind the first of which these bytes stand.
pub fn raw_len(bytes: &[u8]) -> Option<usize>
    ensures { result ≡ enclosed_len is_raw backquote bytes.now }
{
    let count = unmarked_len(bytes);
    if begins_with(&bytes[count..], b'`') {
        Some(count + 2)
    } else {
        None
    }
}

/// How many bytes stand before a quotation mark or the end of the line.
fn quotable_len(bytes: &[u8]) -> usize
    ensures len { result ≡ prefix_len is_quotable bytes.now }
    ensures within { result ≤ length bytes.now }
{
    bytes
        .iter()
        .take_while(|byte| **byte != b'"' && **byte != b'\n')
        .count()
}

/// How many bytes stand before a backquote.
fn unmarked_len(bytes: &[u8]) -> usize
    ensures len { result ≡ prefix_len is_raw bytes.now }
    ensures within { result ≤ length bytes.now }
{
    bytes.iter().take_while(|byte| **byte != b'`').count()
}

/// Whether this byte is the first.
fn begins_with(bytes: &[u8], byte: u8) -> bool
    ensures { result ≡ begins_with (λ first. first == byte) bytes.now }
{
    bytes.first() == Some(&byte)
}
