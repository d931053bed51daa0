//! What parameters of new types get: each feed is judged.

ghost use Rattle.std.specs.Prelude.{◌≡◌, option_copied};
ghost use Rattle.std.specs.List.{list_any};
ghost use Rattle.aerie_base.specs.models.Names.{same_name};
ghost use Rattle.plan_edit.specs.Mappings.{may_feed as may_feed_by, same_variants as same_variants_by};
ghost use Rattle.diagnostics.specs.Diagnostics.{all_of};
ghost use Rattle.session_reader.specs.Diagnostics.{noted};
ghost use Rattle.session_reader.specs.MappingDiagnostics.{value_diagnostics, may_feed_if_known as may_feed_if_known_by, same_if_known as same_if_known_by, value_fits as value_fits_by, parameter_diagnostics, feed_diagnostics, gets_a_value as gets_a_value_by};

use crate::causes::Cause;
use crate::known_parts::{parameter_named, parameter_position};
use crate::literals::{literal_kind, note_literal};
use aerie_base::{Activity, EnumType, Kind, Model, Name, Parameter};
use diagnostics::{Diagnostic, note, note_unless, same_kind};
use session_grammar::{RawFeed, RawFeedValue};

/// Whether two enumerations have the same list of variant names.
fn same_variants(one: Option<&EnumType>, other: Option<&EnumType>) -> bool
    ensures { result ≡ same_variants_by (option_copied one.entry) (option_copied other.entry) }
{
    match one {
        None => false,
        Some(one) => match other {
            None => false,
            Some(other) => one.variants.as_slice() == other.variants.as_slice(),
        },
    }
}

/// Whether values of a type of the old model may feed a parameter of a type of the new one.
fn may_feed(old: &[EnumType], new: &[EnumType], from: Kind, to: Kind) -> bool
    ensures { result ≡ may_feed_by old.now new.now from to }
{
    match from {
        Kind::Int => match to {
            Kind::Int => true,
            _ => false,
        },
        Kind::Truth => match to {
            Kind::Truth => true,
            _ => false,
        },
        Kind::Enum(from) => match to {
            Kind::Enum(to) => same_variants(old.get(usize::from(from)), new.get(usize::from(to))),
            _ => false,
        },
    }
}

/// Whether a parameter, where it is known, may feed one of a type.
fn may_feed_if_known(
    old: &[EnumType],
    new: &[EnumType],
    parameter: Option<&Parameter>,
    kind: Kind,
) -> bool
    ensures { result ≡ may_feed_if_known_by old.now new.now (option_copied parameter.entry) kind }
{
    match parameter {
        None => true,
        Some(parameter) => may_feed(old, new, parameter.kind, kind),
    }
}

/// Whether a type, where it is known, is this one.
pub(crate) fn same_if_known(found: Option<Kind>, kind: Kind) -> bool
    ensures { result ≡ same_if_known_by found kind }
{
    match found {
        None => true,
        Some(found) => same_kind(found, kind),
    }
}

/// Whether the value may feed a parameter of a type.
fn value_fits(old: &Model, new: &Model, from: &Activity, kind: Kind, value: &RawFeedValue) -> bool
    ensures { result ≡ value_fits_by old.now new.now from.now kind value.now }
{
    match value {
        RawFeedValue::Parameter(name) => {
            let parameter = parameter_named(from.parameters.as_slice(), &name.name);
            may_feed_if_known(old.enums(), new.enums(), parameter, kind)
        }
        RawFeedValue::Literal(literal) => {
            same_if_known(literal_kind(new.enums(), &literal.what), kind)
        }
    }
}

/// Notes a name in the value that is unknown.
fn note_value(
    new: &Model,
    from: &Activity,
    value: &RawFeedValue,
    found: &mut Option<Diagnostic<Cause>>,
)
    ensures { found.new ≡ noted found.old (value_diagnostics new.now from.now value.now) }
{
    match value {
        RawFeedValue::Parameter(name) => {
            let is_known = parameter_position(from.parameters.as_slice(), &name.name).is_some();
            note_unless(is_known, found, name.at, Cause::Unknown);
        }
        RawFeedValue::Literal(literal) => note_literal(new.enums(), &literal.what, found),
    }
}

/// Notes a parameter that is unknown, or that the value does not fit.
fn note_parameter(
    old: &Model,
    new: &Model,
    from: &Activity,
    feed: &RawFeed,
    parameter: Option<&Parameter>,
    found: &mut Option<Diagnostic<Cause>>,
)
    ensures { found.new ≡ noted found.old (parameter_diagnostics old.now new.now from.now feed.now (option_copied parameter.entry)) }
{
    match parameter {
        None => note(found, feed.parameter.at, Cause::Unknown),
        Some(parameter) => {
            let fits = value_fits(old, new, from, parameter.kind, &feed.value);
            note_unless(fits, found, feed.parameter.at, Cause::WrongType);
        }
    }
}

/// Notes what is wrong with a feed.
fn note_feed(
    old: &Model,
    new: &Model,
    from: &Activity,
    to: &Activity,
    feed: &RawFeed,
    found: &mut Option<Diagnostic<Cause>>,
)
    ensures { found.new ≡ noted found.old (feed_diagnostics old.now new.now from.now to.now feed.now) }
{
    let parameter = parameter_named(to.parameters.as_slice(), &feed.parameter.name);
    note_parameter(old, new, from, feed, parameter, found);
    note_value(new, from, &feed.value, found);
}

/// Notes what is wrong with each of these feeds.
pub(crate) fn note_feeds(
    old: &Model,
    new: &Model,
    from: &Activity,
    to: &Activity,
    feeds: &[RawFeed],
    found: &mut Option<Diagnostic<Cause>>,
)
    ensures { found.new ≡ noted found.old (all_of (feed_diagnostics old.now new.now from.now to.now) feeds.now) }
{
    for feed in feeds {
        note_feed(old, new, from, to, feed, found);
    }
}

/// Whether one of some feeds is for the parameter with a name.
fn is_fed(feeds: &[RawFeed], name: &Name) -> bool
    ensures { result ≡ list_any (λ raw. same_name raw.parameter.name name.now) feeds.now }
{
    feeds.iter().any(|feed| feed.parameter.name == *name)
}

/// Whether a parameter has a feed or a default. It takes a pass over the feeds, and a type has at most 16 parameters.
pub(crate) fn gets_a_value(feeds: &[RawFeed], parameter: &Parameter) -> bool
    ensures { result ≡ gets_a_value_by feeds.now parameter.now }
{
    parameter.default.is_some() || is_fed(feeds, &parameter.name)
}
