//! Whole numbers and literals. The grammars of rules and of sessions have them too.

ghost use Rattle.std.specs.Prelude.{◌≡◌, neg_ℤ};
ghost use Rattle.readers.specs.Implements.{Consumes, MayConsume};
ghost use Rattle.model_reader.specs.reading.Literals.{sign_at, with_minus, int_at, amount_at, amount_literal_at, truth_literal_at, variant_literal_at, literal_at};

use crate::raw::{RawLiteral, RawLiteralKind};
use crate::reading::names::raw_name;
use aerie_base::{Number, Place};
use aerie_text::Sort;
use readers::{Reader, Refusal};
use std::alloc::Global;

/// Reads a minus, where there is one, and gives its place.
#[tactic(auto, unfolding(crate::specs::reading::Literals::sign_at, crate::specs::reading::Literals::minus_at))]
pub fn optional_minus(reader: &mut Reader) -> Result<Option<Place>, Refusal>
    ensures { MayConsume sign_at reader.old reader.new result }
{
    if reader.next_is(Sort::Minus) {
        let minus = reader.take(Sort::Minus)?;
        Ok(Some(minus))
    } else {
        Ok(None)
    }
}

/// The number with the other sign.
pub fn negated(number: Number) -> Number
    ensures { result ≡ neg_ℤ number }
{
    Number::new(-number.get()).unwrap()
}

/// The number behind the minus that has this place, and the place where it begins.
pub fn with_minus(minus: Option<Place>, number: (Place, Number)) -> (Place, Number)
    ensures { result ≡ with_minus minus number }
{
    match minus {
        Some(at) => (at, negated(number.1)),
        None => number,
    }
}

/// Reads a whole number, and gives the place where it begins too.
#[tactic(auto, unfolding(crate::specs::reading::Literals::int_at))]
pub fn int(reader: &mut Reader) -> Result<(Place, Number), Refusal>
    ensures { Consumes int_at reader.old reader.new result }
{
    let minus = optional_minus(reader)?;
    let number = reader.number(Sort::Number)?;
    Ok(with_minus(minus, number))
}

/// Reads a number or a duration without a sign.
#[tactic(auto, unfolding(crate::specs::reading::Literals::amount_at))]
pub fn amount(reader: &mut Reader) -> Result<(Place, Number), Refusal>
    ensures { Consumes amount_at reader.old reader.new result }
{
    if reader.next_is(Sort::Number) {
        reader.number(Sort::Number)
    } else {
        reader.number(Sort::Time)
    }
}

/// Reads a number or a duration with its sign.
#[tactic(auto, unfolding(crate::specs::reading::Literals::amount_literal_at))]
pub fn amount_literal(reader: &mut Reader) -> Result<RawLiteral, Refusal>
    ensures { Consumes amount_literal_at reader.old reader.new result }
{
    let minus = optional_minus(reader)?;
    let amount = amount(reader)?;
    let (at, number) = with_minus(minus, amount);
    let what = RawLiteralKind::Number(number);
    Ok(RawLiteral { at, what })
}

/// Reads `true` or `false`, the word of this sort.
#[tactic(auto, unfolding(crate::specs::reading::Literals::truth_literal_at))]
pub fn truth_literal(reader: &mut Reader, sort: Sort, truth: bool) -> Result<RawLiteral, Refusal>
    ensures { Consumes (truth_literal_at sort truth) reader.old reader.new result }
{
    let at = reader.take(sort)?;
    let what = RawLiteralKind::Truth(truth);
    Ok(RawLiteral { at, what })
}

#[tactic(auto, unfolding(crate::specs::reading::Literals::variant_literal_at))]
fn variant_literal(alloc: Global, reader: &mut Reader) -> Result<RawLiteral, Refusal>
    ensures { Consumes variant_literal_at reader.old reader.new result }
{
    let kind = raw_name(alloc, reader)?;
    reader.take(Sort::Dot)?;
    let variant = raw_name(alloc, reader)?;
    let at = kind.at;
    let what = RawLiteralKind::Variant { kind, variant };
    Ok(RawLiteral { at, what })
}

/// Reads a literal.
#[tactic(auto, unfolding(crate::specs::reading::Literals::literal_at))]
pub fn literal(alloc: Global, reader: &mut Reader) -> Result<RawLiteral, Refusal>
    ensures { Consumes literal_at reader.old reader.new result }
{
    if reader.next_is_one_of(&[Sort::Minus, Sort::Number, Sort::Time]) {
        amount_literal(reader)
    } else if reader.next_is(Sort::True) {
        truth_literal(reader, Sort::True, true)
    } else if reader.next_is(Sort::False) {
        truth_literal(reader, Sort::False, false)
    } else {
        variant_literal(alloc, reader)
    }
}
