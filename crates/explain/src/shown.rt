//! Characters as they are shown.

ghost use Rattle.std.specs.Prelude.{◌≡◌, ◌++◌, ◌<◌, OnOk, IfOk, string_bytes};
ghost use Rattle.explain.specs.Shown.{beginnings as beginnings_of, goes_on, as_shown, shown_byte};

use aerie_base::OutOfMemory;
use std::alloc::Global;

/// Whether the byte goes on a character of several bytes.
pub(crate) fn goes_on(byte: u8) -> bool
    ensures { result ≡ goes_on byte }
{
    128 <= byte && byte < 192
}

/// What stands for the character that begins with the byte.
pub(crate) fn shown_byte(byte: u8) -> u8
    ensures shown { result ≡ shown_byte byte }
    ensures ascii { result < 128 }
{
    match byte {
        32..=126 => byte,
        b'\t' | b'\r' => b' ',
        _ => b'?',
    }
}

/// The first bytes of the characters.
pub(crate) fn beginnings(alloc: Global, bytes: &[u8]) -> Result<Vec<u8>, OutOfMemory>
    ensures { IfOk result (λ first. first.items ≡ beginnings_of bytes.now) }
{
    Ok(
        bytes
            .iter()
            .copied()
            .filter(|byte| !goes_on(*byte))
            .collect(alloc)?,
    )
}

/// Appends a text as it is shown.
pub(crate) fn push_shown(text: &mut String, bytes: &[u8]) -> Result<(), OutOfMemory>
    ensures { OnOk result (string_bytes text.new ≡ string_bytes text.old ++ as_shown bytes.now) }
{
    for byte in bytes {
        if !goes_on(*byte) {
            text.push(char::from(shown_byte(*byte)))?;
        }
    }
    Ok(())
}
