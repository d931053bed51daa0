//! Literals, and types where other types are wanted.

ghost use Rattle.std.specs.Prelude.{◌≡◌};
ghost use Rattle.model_check.specs.Diagnostics.{noted};
ghost use Rattle.model_check.specs.Literals.{mismatch, literal_kind, literal_diagnostics, literal_value};

use crate::causes::Cause;
use crate::symbols::EnumSymbol;
use crate::tables::NameTable;
use aerie_base::{Kind, Place, Value};
use diagnostics::{Diagnostic, note, same_kind, short};
use model_reader::RawLiteralKind;

/// Notes a type where another one is wanted.
pub(crate) fn note_mismatch(
    found: &mut Option<Diagnostic<Cause>>,
    at: Place,
    wanted: Option<Kind>,
    kind: Option<Kind>,
)
    ensures { found.new ≡ noted found.old (mismatch at wanted kind) }
{
    if let Some(wanted) = wanted
        && let Some(kind) = kind
        && !same_kind(wanted, kind)
    {
        note(found, at, Cause::WrongType);
    }
}

/// The type of a literal, where its enumeration is known.
pub(crate) fn literal_kind(enums: &NameTable<EnumSymbol>, literal: &RawLiteralKind) -> Option<Kind>
    ensures { result ≡ literal_kind enums.now literal.now }
{
    match literal {
        RawLiteralKind::Number(_) => Some(Kind::Int),
        RawLiteralKind::Truth(_) => Some(Kind::Truth),
        RawLiteralKind::Variant { kind, .. } => {
            let (number, _) = enums.find(&kind.name)?;
            Some(Kind::Enum(short(number)))
        }
    }
}

/// Notes what is wrong with a literal.
pub(crate) fn note_literal(
    enums: &NameTable<EnumSymbol>,
    literal: &RawLiteralKind,
    found: &mut Option<Diagnostic<Cause>>,
)
    ensures { found.new ≡ noted found.old (literal_diagnostics enums.now literal.now) }
{
    if let RawLiteralKind::Variant { kind, variant } = literal {
        match enums.find(&kind.name) {
            None => note(found, kind.at, Cause::Unknown),
            Some((_, symbol)) => {
                if symbol.variants.number(&variant.name).is_none() {
                    note(found, variant.at, Cause::Unknown);
                }
            }
        }
    }
}

/// The value of a literal; of one with something wrong, any.
pub(crate) fn literal_value(enums: &NameTable<EnumSymbol>, literal: &RawLiteralKind) -> Value
    ensures { result ≡ literal_value enums.now literal.now }
{
    match literal {
        RawLiteralKind::Number(number) => Value::Int(*number),
        RawLiteralKind::Truth(truth) => Value::Truth(*truth),
        RawLiteralKind::Variant { kind, variant } => match enums.find(&kind.name) {
            None => Value::Truth(false),
            Some((kind, symbol)) => match symbol.variants.number(&variant.name) {
                None => Value::Truth(false),
                Some(number) => Value::Variant {
                    kind: short(kind),
                    number: short(number),
                },
            },
        },
    }
}
