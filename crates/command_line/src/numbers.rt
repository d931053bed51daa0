//! Numbers on the command line.

ghost use Rattle.std.specs.Option.{option_copied};
ghost use Rattle.std.specs.Prelude.{◌≡◌, ◌≤◌, ◌↔◌, IfSome, IsTrue};
ghost use Rattle.command_line.specs.Invocations.{number_up_to as number_up_to_by, number_or as number_or_by};

/// Whether a number is 1 to `most`.
fn is_in_range(number: u64, most: u64) -> bool
    ensures { IsTrue result ↔ (1 ≤ number) × (number ≤ most) }
{
    1 <= number && number <= most
}

/// The number that a text of decimal digits is, where it is 1 to `most`. A plus may stand in front.
pub(crate) fn number_up_to(text: &str, most: u64) -> Option<u64>
    ensures exact { result ≡ number_up_to_by most text.now }
    ensures within { IfSome result (λ number. (1 ≤ number) × (number ≤ most)) }
{
    match text.parse::<u64>() {
        Ok(number) if is_in_range(number, most) => Some(number),
        _ => None,
    }
}

/// The number of an option, which is the usual one where the option is not given.
pub(crate) fn number_or(given: Option<&str>, usual: u64, most: u64) -> Option<u64>
    requires usual { (1 ≤ usual) × (usual ≤ most) }
    ensures exact { result ≡ number_or_by usual most (option_copied given.entry) }
    ensures within { IfSome result (λ number. (1 ≤ number) × (number ≤ most)) }
{
    match given {
        None => Some(usual),
        Some(text) => number_up_to(text, most),
    }
}
