//! What is refused of windows is found. The time is linear in a window, but for looking up its names.

ghost use Rattle.std.specs.Prelude.{◌≡◌, option_copied};
ghost use Rattle.rule_check.specs.Refusals.{noted};
ghost use Rattle.rule_check.specs.WindowRefusals.{refusals_of_name, refusals_of_type, is_bound, refusals_of_span, refusals_of_named_variant, refusals_beside, refusals_of_tested, is_coefficient_within, refusals_of_term, refusals_of_terms, refusals_of_sums, refusals_of_window};

use crate::causes::WrongRule;
use crate::names::{is_of_kind, name_kind, position_of_enum, position_of_type, variant_position};
use aerie_base::{Kind, List, Model, Name, Number, Place, Shared};
use dataset_in::Series;
use diagnostics::{Diagnostic, note, note_unless};
use model_reader::RawName;
use readers::Limit;
use rule_grammar::{RawTerm, RawTested, RawWindow};

/// How many terms a sum may have.
const MOST_TERMS: usize = 16;

// ---- names

/// Refuses a name that reads nothing of the wanted type.
pub fn judge_name(
    model: &Model,
    datasets: &[(Name, Shared<Series>)],
    wanted: Kind,
    name: &RawName,
    found: &mut Option<Diagnostic<WrongRule>>,
)
    ensures { found.new ≡ noted found.old (refusals_of_name model.now datasets.now wanted name.now) }
{
    match name_kind(model, datasets, &name.name) {
        None => note(found, name.at, WrongRule::Unknown),
        Some(kind) => note_unless(
            is_of_kind(wanted, kind),
            found,
            name.at,
            WrongRule::WrongType,
        ),
    }
}

/// Refuses a name of no activity type.
pub fn judge_type(model: &Model, name: &RawName, found: &mut Option<Diagnostic<WrongRule>>)
    ensures { found.new ≡ noted found.old (refusals_of_type model.now name.now) }
{
    let is_known = position_of_type(model, &name.name).is_some();
    note_unless(is_known, found, name.at, WrongRule::Unknown);
}

/// Whether the name is the one that `for` binds.
pub fn is_bound(bound: Option<&Name>, name: &Name) -> bool
    ensures { result ≡ is_bound (option_copied bound.entry) name.now }
{
    match bound {
        Some(bound) => *bound == *name,
        None => false,
    }
}

/// Refuses a name in `during` that is neither bound nor of an activity type.
fn judge_span(
    model: &Model,
    bound: Option<&Name>,
    name: &RawName,
    found: &mut Option<Diagnostic<WrongRule>>,
)
    ensures { found.new ≡ noted found.old (refusals_of_span model.now (option_copied bound.entry) name.now) }
{
    let is_known = is_bound(bound, &name.name) || position_of_type(model, &name.name).is_some();
    note_unless(is_known, found, name.at, WrongRule::Unknown);
}

// ---- values

/// Refuses a variant that is none of the enumeration of this number.
#[tactic(auto, using(diagnostics::specs::NotedInTurn::noted_appended))]
fn judge_variant(
    model: &Model,
    wanted: u16,
    at: Place,
    kind: &RawName,
    variant: &RawName,
    found: &mut Option<Diagnostic<WrongRule>>,
)
    ensures { found.new ≡ noted found.old (refusals_of_named_variant model.now wanted at kind.now variant.now) }
{
    match position_of_enum(model, &kind.name) {
        None => note(found, kind.at, WrongRule::Unknown),
        Some(number) => {
            note_unless(
                number == usize::from(wanted),
                found,
                at,
                WrongRule::WrongType,
            );
            let is_known = variant_position(model, number, &variant.name).is_some();
            note_unless(is_known, found, variant.at, WrongRule::Unknown);
        }
    }
}

/// Refuses a value that something of a type is not compared with.
fn judge_tested(
    model: &Model,
    kind: Option<Option<Kind>>,
    at: Place,
    value: &RawTested,
    found: &mut Option<Diagnostic<WrongRule>>,
)
    ensures { found.new ≡ noted found.old (refusals_of_tested model.now kind at value.now) }
{
    match kind {
        None => note(found, at, WrongRule::Unknown),
        Some(kind) => match value {
            RawTested::Truth(_) => {
                note_unless(
                    is_of_kind(Kind::Truth, kind),
                    found,
                    at,
                    WrongRule::WrongType,
                )
            }
            RawTested::Variant {
                kind: enumeration,
                variant,
            } => judge_beside(model, kind, at, enumeration, variant, found),
        },
    }
}

/// Refuses a variant beside something of a type.
fn judge_beside(
    model: &Model,
    kind: Option<Kind>,
    at: Place,
    enumeration: &RawName,
    variant: &RawName,
    found: &mut Option<Diagnostic<WrongRule>>,
)
    ensures { found.new ≡ noted found.old (refusals_beside model.now kind at enumeration.now variant.now) }
{
    match kind {
        Some(Kind::Enum(wanted)) => judge_variant(model, wanted, at, enumeration, variant, found),
        _ => note(found, at, WrongRule::WrongType),
    }
}

// ---- sums

/// Whether a coefficient is in its range.
fn is_coefficient_within(coefficient: Number) -> bool
    ensures { result ≡ is_coefficient_within coefficient }
{
    coefficient.get().unsigned_abs() <= 1_000_000
}

/// Refuses a term with a coefficient out of its range, or of no number.
#[tactic(auto, using(diagnostics::specs::NotedInTurn::noted_appended))]
fn judge_term(
    model: &Model,
    datasets: &[(Name, Shared<Series>)],
    term: &RawTerm,
    found: &mut Option<Diagnostic<WrongRule>>,
)
    ensures { found.new ≡ noted found.old (refusals_of_term model.now datasets.now term.now) }
{
    match &term.resource {
        None => {}
        Some(name) => {
            note_unless(
                is_coefficient_within(term.number),
                found,
                term.at,
                WrongRule::OutOfRange,
            );
            judge_name(model, datasets, Kind::Int, name, found);
        }
    }
}

/// Judges the terms of a sum, of which there may be so many more.
#[tactic(auto, using(diagnostics::specs::NotedInTurn::noted_appended))]
fn judge_terms(
    model: &Model,
    datasets: &[(Name, Shared<Series>)],
    terms: &[RawTerm],
    room: usize,
    found: &mut Option<Diagnostic<WrongRule>>,
)
    ensures { found.new ≡ noted found.old (refusals_of_terms model.now datasets.now room terms.now) }
{
    match terms.split_first() {
        None => {}
        Some((term, rest)) => {
            if room == 0 {
                note(found, term.at, WrongRule::TooMany(Limit::Terms));
            } else {
                judge_term(model, datasets, term, found);
                judge_terms(model, datasets, rest, room - 1, found);
            }
        }
    }
}

/// Judges both sides of a comparison.
#[tactic(auto, using(diagnostics::specs::NotedInTurn::noted_appended))]
fn judge_sums(
    model: &Model,
    datasets: &[(Name, Shared<Series>)],
    left: &List<RawTerm>,
    right: &List<RawTerm>,
    found: &mut Option<Diagnostic<WrongRule>>,
)
    ensures { found.new ≡ noted found.old (refusals_of_sums model.now datasets.now left.now right.now) }
{
    judge_terms(model, datasets, left.as_slice(), MOST_TERMS, found);
    judge_terms(model, datasets, right.as_slice(), MOST_TERMS, found);
}

// ---- windows

/// Judges a window in which this name is bound.
#[tactic(auto, using(diagnostics::specs::NotedInTurn::noted_appended, crate::proofs::WindowForms::refused_literal, crate::proofs::WindowForms::refused_not, crate::proofs::WindowForms::refused_and, crate::proofs::WindowForms::refused_or, crate::proofs::WindowForms::refused_during, crate::proofs::WindowForms::refused_shift, crate::proofs::WindowForms::refused_longer, crate::proofs::WindowForms::refused_truth, crate::proofs::WindowForms::refused_same, crate::proofs::WindowForms::refused_compare))]
pub fn judge_window(
    model: &Model,
    datasets: &[(Name, Shared<Series>)],
    bound: Option<&Name>,
    raw: &RawWindow,
    found: &mut Option<Diagnostic<WrongRule>>,
)
    ensures { found.new ≡ noted found.old (refusals_of_window model.now datasets.now (option_copied bound.entry) raw.now) }
{
    match raw {
        RawWindow::Literal(_) => {}
        RawWindow::And(left, right) | RawWindow::Or(left, right) => {
            judge_window(model, datasets, bound, left.get(), found);
            judge_window(model, datasets, bound, right.get(), found);
        }
        RawWindow::Not(part) => judge_window(model, datasets, bound, part.get(), found),
        RawWindow::During(name) => judge_span(model, bound, name, found),
        RawWindow::Shift { of, .. } => judge_window(model, datasets, bound, of.get(), found),
        RawWindow::Longer { of, .. } => judge_window(model, datasets, bound, of.get(), found),
        RawWindow::Truth(name) => judge_name(model, datasets, Kind::Truth, name, found),
        RawWindow::Same { resource, with, .. } => {
            let kind = name_kind(model, datasets, &resource.name);
            judge_tested(model, kind, resource.at, with, found);
        }
        RawWindow::Compare { left, right, .. } => judge_sums(model, datasets, left, right, found),
    }
}
