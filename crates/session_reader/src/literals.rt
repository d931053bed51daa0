//! Literals of mappings and of beginnings, by the enumerations of their model.

ghost use Rattle.std.specs.Prelude.{◌≡◌, option_copied};
ghost use Rattle.aerie_base.specs.models.Names.{is_name_among};
ghost use Rattle.session_reader.specs.Diagnostics.{noted};
ghost use Rattle.session_reader.specs.Literals.{enum_position as enum_position_by, enum_named as enum_named_by, variant_position as variant_position_by, variant_in as variant_in_by, variant_value as variant_value_by, variant_diagnostics, literal_kind as literal_kind_by, literal_diagnostics, literal_value as literal_value_by};

use crate::causes::Cause;
use aerie_base::{EnumType, Kind, Name, Value};
use diagnostics::{Diagnostic, note, note_unless, short};
use model_reader::{RawLiteralKind, RawName};

/// The position of the enumeration with a name.
fn enum_position(enums: &[EnumType], name: &Name) -> Option<usize>
    ensures { result ≡ enum_position_by enums.now name.now }
{
    enums.iter().position(|one| one.name == *name)
}

/// The enumeration with a name.
fn enum_named<'a>(enums: &'a [EnumType], name: &Name) -> Option<&'a EnumType>
    ensures { option_copied result ≡ enum_named_by enums.now name.now }
{
    match enum_position(enums, name) {
        Some(place) => enums.get(place),
        None => None,
    }
}

/// The position of the variant with a name.
fn variant_position(variants: &[Name], name: &Name) -> Option<usize>
    ensures { result ≡ variant_position_by variants.now name.now }
{
    variants.iter().position(|variant| *name == *variant)
}

/// Whether a name is one of these.
fn is_among(name: &Name, names: &[Name]) -> bool
    ensures { result ≡ is_name_among name.now names.now }
{
    names.iter().any(|other| *name == *other)
}

/// Notes a variant of an enumeration that is unknown or has no such variant.
fn note_variant(
    enumeration: Option<&EnumType>,
    kind: &RawName,
    variant: &RawName,
    found: &mut Option<Diagnostic<Cause>>,
)
    ensures { found.new ≡ noted found.old (variant_diagnostics kind.now variant.now (option_copied enumeration.entry)) }
{
    match enumeration {
        None => note(found, kind.at, Cause::Unknown),
        Some(enumeration) => {
            let is_known = is_among(&variant.name, enumeration.variants.as_slice());
            note_unless(is_known, found, variant.at, Cause::Unknown);
        }
    }
}

/// Notes what is wrong with a literal.
pub(crate) fn note_literal(
    enums: &[EnumType],
    literal: &RawLiteralKind,
    found: &mut Option<Diagnostic<Cause>>,
)
    ensures { found.new ≡ noted found.old (literal_diagnostics enums.now literal.now) }
{
    match literal {
        RawLiteralKind::Number(_) => {}
        RawLiteralKind::Truth(_) => {}
        RawLiteralKind::Variant { kind, variant } => {
            note_variant(enum_named(enums, &kind.name), kind, variant, found);
        }
    }
}

/// The type of a literal, where its enumeration is known.
pub(crate) fn literal_kind(enums: &[EnumType], literal: &RawLiteralKind) -> Option<Kind>
    ensures { result ≡ literal_kind_by enums.now literal.now }
{
    match literal {
        RawLiteralKind::Number(_) => Some(Kind::Int),
        RawLiteralKind::Truth(_) => Some(Kind::Truth),
        RawLiteralKind::Variant { kind, .. } => {
            let place = enum_position(enums, &kind.name)?;
            Some(Kind::Enum(short(place)))
        }
    }
}

/// The position of a variant of an enumeration.
fn variant_in(name: &Name, enumeration: Option<&EnumType>) -> Option<usize>
    ensures { result ≡ variant_in_by name.now (option_copied enumeration.entry) }
{
    match enumeration {
        None => None,
        Some(enumeration) => variant_position(enumeration.variants.as_slice(), name),
    }
}

/// The variant of these numbers; where there is none, any value.
fn variant_value(kind: Option<usize>, variant: Option<usize>) -> Value
    ensures { result ≡ variant_value_by kind variant }
{
    match kind {
        None => Value::Truth(false),
        Some(kind) => match variant {
            None => Value::Truth(false),
            Some(variant) => Value::Variant {
                kind: short(kind),
                number: short(variant),
            },
        },
    }
}

/// The value of a literal; of one with something wrong, any.
pub(crate) fn literal_value(enums: &[EnumType], literal: &RawLiteralKind) -> Value
    ensures { result ≡ literal_value_by enums.now literal.now }
{
    match literal {
        RawLiteralKind::Number(number) => Value::Int(*number),
        RawLiteralKind::Truth(truth) => Value::Truth(*truth),
        RawLiteralKind::Variant { kind, variant } => {
            let enumeration = enum_named(enums, &kind.name);
            let number = variant_in(&variant.name, enumeration);
            variant_value(enum_position(enums, &kind.name), number)
        }
    }
}
