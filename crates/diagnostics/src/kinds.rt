//! Types and numbers of a model.

ghost use Rattle.std.specs.Prelude.{◌≡◌};
ghost use Rattle.aerie_base.specs.expressions.Typing.{same_kind};
ghost use Rattle.diagnostics.specs.ShortNumbers.{short};

use aerie_base::Kind;

/// The number in 16 bits; one past their end stands at it.
pub fn short(number: usize) -> u16
    ensures { result ≡ short number }
{
    if number < 65535 { number as u16 } else { 65535 }
}

/// Whether two types are one.
pub fn same_kind(one: Kind, other: Kind) -> bool
    ensures { result ≡ same_kind one other }
{
    match one {
        Kind::Int => match other {
            Kind::Int => true,
            _ => false,
        },
        Kind::Truth => match other {
            Kind::Truth => true,
            _ => false,
        },
        Kind::Enum(number) => match other {
            Kind::Enum(other) => number == other,
            _ => false,
        },
    }
}
