//! Texts that stand between two marks.

ghost use Rattle.std.specs.Prelude.{◌≡◌, ◌<◌};
ghost use Rattle.session_reader.specs.Quotes.{is_quoted as is_quoted_by, unquoted as unquoted_by};

/// The mark before and behind a STRING.
pub(crate) const QUOTATION_MARK: u8 = b'"';

/// The mark before and behind a RAW.
pub(crate) const BACKQUOTE: u8 = b'`';

/// Whether the text begins and ends with the mark.
fn is_quoted(mark: u8, text: &[u8]) -> bool
    ensures { result ≡ is_quoted_by mark text.now }
{
    2 <= text.len() && text[0] == mark && text[text.len() - 1] == mark
}

/// The text between the marks, which are ASCII.
pub(crate) fn unquoted(mark: u8, text: &str) -> &str
    requires { mark < 128 }
    ensures { result.now ≡ unquoted_by mark text.now }
{
    if is_quoted(mark, text.as_bytes()) {
        &text[1..text.len() - 1]
    } else {
        text
    }
}
