//! Texts of fixed form: digits at given places, and signs between them.

ghost use Rattle.std.specs.Prelude.{◌≡◌, ◌<◌, ◌≤◌, ◌^◌, length, IsTrue};
ghost use Rattle.std.specs.Char.{is_ascii_digit};
ghost use Rattle.std.specs.List.{list_all};
ghost use Rattle.std.specs.Str.Parse.{digits_value};
ghost use Rattle.epoch_text.specs.Forms.{has_signs, has_form, sign_of};

/// Whether a text has a form: a digit where the form has 0, elsewhere the form's own sign, and no byte more or less.
pub(crate) fn has_form(text: &[u8], form: &[u8]) -> bool
    ensures { result ≡ has_form text.now form.now }
{
    text.len() == form.len() && has_signs(text, form)
}

/// Whether each byte is as the form's sign at its place says.
fn has_signs(text: &[u8], form: &[u8]) -> bool
    ensures { result ≡ has_signs text.now form.now }
{
    text.iter()
        .zip(form)
        .all(|(byte, sign)| sign_of(*byte) == *sign)
}

/// A byte, where 0 stands for each digit.
fn sign_of(byte: u8) -> u8
    ensures { result ≡ sign_of byte }
{
    if byte.is_ascii_digit() { b'0' } else { byte }
}

/// The number that up to six digits write.
#[tactic(auto, using(aerie_base::specs::DigitValues::value_more, crate::proofs::Digits::value_small, crate::proofs::Digits::value_bound))]
pub(crate) fn number(digits: &[u8]) -> u32
    requires digits { IsTrue (list_all is_ascii_digit digits.now) }
    requires few { length digits.now ≤ 6 }
    ensures value { result ≡ digits_value 10 digits.now }
    ensures bound { result < 10 ^ length digits.now }
{
    let mut number = 0;
    for digit in digits {
        number = number * 10 + u32::from(*digit - b'0');
    }
    number
}
