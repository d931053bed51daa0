//! The start of the plans.

ghost use Rattle.std.specs.Prelude.{◌≡◌};
ghost use Rattle.session_reader.specs.Starts.{start_answer};

use crate::quotes::{QUOTATION_MARK, unquoted};
use crate::session_error::SessionError;
use epoch_text::{Start, read_start};
use session_grammar::RawStart;

/// Reads the start.
pub(crate) fn start(raw: &RawStart) -> Result<Start, SessionError>
    ensures { result ≡ start_answer raw.now }
{
    match read_start(unquoted(QUOTATION_MARK, raw.text.as_str())) {
        Ok(start) => Ok(start),
        Err(_) => Err(SessionError::Start(raw.at)),
    }
}
