//! The windows that are meant. The time is linear in a window, but for looking up its names.

ghost use Rattle.std.specs.Prelude.{◌≡◌, IfOk, option_copied};
ghost use Rattle.constraints.specs.declared.types.Window.TheVariants.{Truth};
ghost use Rattle.rule_check.specs.RuleNames.{reading_named};
ghost use Rattle.rule_check.specs.WindowMeaning.{number_or_first, number_of_type, variant_in, tested_value, signed_time, time_within, compared_sums, during_of, same_as, window_of};

use crate::names::{position_of_enum, position_of_type, reading_named, variant_position};
use crate::window::refusals::is_bound;
use crate::window::sums::meant_sum;
use aerie_base::{Boxed, Comparison, List, Model, Name, Number, OutOfMemory, Shared, Time, Value};
use constraints::Window;
use dataset_in::Series;
use diagnostics::short;
use model_reader::RawName;
use rule_grammar::{RawTerm, RawTested, RawWindow};
use std::alloc::Global;

/// The number of a part of a model, where there is one.
pub fn number_or_first(place: Option<usize>) -> u16
    ensures { result ≡ number_or_first place }
{
    match place {
        Some(number) => short(number),
        None => 0,
    }
}

/// The number of an activity type.
pub fn number_of_type(model: &Model, name: &RawName) -> u16
    ensures { result ≡ number_of_type model.now name.now }
{
    number_or_first(position_of_type(model, &name.name))
}

// ---- values and times

/// The variant of the enumeration of this position.
pub fn variant_in(model: &Model, kind: Option<usize>, variant: &RawName) -> Value
    ensures { result ≡ variant_in model.now kind variant.now }
{
    match kind {
        None => Value::Truth(false),
        Some(kind) => Value::Variant {
            kind: short(kind),
            number: number_or_first(variant_position(model, kind, &variant.name)),
        },
    }
}

fn tested_value(model: &Model, value: &RawTested) -> Value
    ensures { result ≡ tested_value model.now value.now }
{
    match value {
        RawTested::Truth(truth) => Value::Truth(*truth),
        RawTested::Variant { kind, variant } => {
            variant_in(model, position_of_enum(model, &kind.name), variant)
        }
    }
}

/// A length of time with its sign.
pub fn signed_time(count: Number) -> i64
    ensures { result ≡ signed_time count }
{
    let count = count.get();
    if count.unsigned_abs() <= 1_000_000_000_000_000 {
        count
    } else {
        0
    }
}

/// A length of time without a sign.
pub fn time_within(count: Number) -> Time
    ensures { result ≡ time_within count }
{
    let size = count.get().unsigned_abs();
    let most = 1_000_000_000_000_000;
    let least = if size <= most { size } else { most };
    Time::new(least as i64).unwrap()
}

// ---- windows

/// The span in a `during`.
fn during_of(model: &Model, bound: Option<&Name>, name: &RawName) -> Window
    ensures { result ≡ during_of model.now (option_copied bound.entry) name.now }
{
    if is_bound(bound, &name.name) {
        Window::DuringBound
    } else {
        Window::During(number_of_type(model, name))
    }
}

/// The comparison of two sums.
fn compared_sums(
    alloc: Global,
    model: &Model,
    datasets: &[(Name, Shared<Series>)],
    left: &List<RawTerm>,
    how: Comparison,
    right: &List<RawTerm>,
) -> Result<Window, OutOfMemory>
    ensures { IfOk result (λ window. window ≡ compared_sums model.now datasets.now left.now how right.now) }
{
    let left = meant_sum(alloc, model, datasets, left)?;
    let right = meant_sum(alloc, model, datasets, right)?;
    Ok(Window::Compare { left, how, right })
}

/// The test of a resource or dataset for a value.
fn same_as(
    alloc: Global,
    model: &Model,
    datasets: &[(Name, Shared<Series>)],
    name: &Name,
    value: &RawTested,
    equal: bool,
) -> Result<Window, OutOfMemory>
    ensures { IfOk result (λ window. window ≡ same_as model.now datasets.now name.now value.now equal) }
{
    let resource = reading_named(alloc, model, datasets, name)?;
    Ok(Window::Same {
        resource,
        value: tested_value(model, value),
        equal,
    })
}

/// The truth of a resource or dataset.
fn truth_of(
    alloc: Global,
    model: &Model,
    datasets: &[(Name, Shared<Series>)],
    name: &Name,
) -> Result<Window, OutOfMemory>
    ensures { IfOk result (λ window. window ≡ Truth (reading_named model.now datasets.now name.now)) }
{
    let resource = reading_named(alloc, model, datasets, name)?;
    Ok(Window::Truth(resource))
}

/// The window that is meant by one in which this name is bound, in a position of its own.
#[cycle(meaning)]
fn part_of(
    alloc: Global,
    model: &Model,
    datasets: &[(Name, Shared<Series>)],
    bound: Option<&Name>,
    raw: &Boxed<RawWindow>,
) -> Result<Boxed<Window>, OutOfMemory>
    ensures { IfOk result (λ window. window ≡ window_of model.now datasets.now (option_copied bound.entry) raw.now) }
{
    let window = window_of(alloc, model, datasets, bound, raw.get())?;
    Boxed::new(alloc, window)
}

/// The window that is meant by one in which this name is bound.
#[cycle(meaning)]
#[tactic(auto, using(crate::proofs::WindowForms::meant_literal, crate::proofs::WindowForms::meant_not, crate::proofs::WindowForms::meant_and, crate::proofs::WindowForms::meant_or, crate::proofs::WindowForms::meant_during, crate::proofs::WindowForms::meant_shift, crate::proofs::WindowForms::meant_longer, crate::proofs::WindowForms::meant_truth, crate::proofs::WindowForms::meant_same, crate::proofs::WindowForms::meant_compare))]
pub fn window_of(
    alloc: Global,
    model: &Model,
    datasets: &[(Name, Shared<Series>)],
    bound: Option<&Name>,
    raw: &RawWindow,
) -> Result<Window, OutOfMemory>
    ensures { IfOk result (λ window. window ≡ window_of model.now datasets.now (option_copied bound.entry) raw.now) }
{
    match raw {
        RawWindow::Literal(truth) => Ok(Window::Literal(*truth)),
        RawWindow::And(left, right) => {
            let left = part_of(alloc, model, datasets, bound, left)?;
            let right = part_of(alloc, model, datasets, bound, right)?;
            Ok(Window::And(left, right))
        }
        RawWindow::Or(left, right) => {
            let left = part_of(alloc, model, datasets, bound, left)?;
            let right = part_of(alloc, model, datasets, bound, right)?;
            Ok(Window::Or(left, right))
        }
        RawWindow::Not(part) => {
            let part = part_of(alloc, model, datasets, bound, part)?;
            Ok(Window::Not(part))
        }
        RawWindow::During(name) => Ok(during_of(model, bound, name)),
        RawWindow::Shift { of, start, end } => {
            let of = part_of(alloc, model, datasets, bound, of)?;
            Ok(Window::Shift {
                of,
                start: signed_time(*start),
                end: signed_time(*end),
            })
        }
        RawWindow::Longer { of, least } => {
            let of = part_of(alloc, model, datasets, bound, of)?;
            Ok(Window::Longer {
                of,
                least: time_within(*least),
            })
        }
        RawWindow::Truth(name) => truth_of(alloc, model, datasets, &name.name),
        RawWindow::Same {
            resource,
            with,
            equal,
        } => same_as(alloc, model, datasets, &resource.name, with, *equal),
        RawWindow::Compare { left, how, right } => {
            compared_sums(alloc, model, datasets, left, *how, right)
        }
    }
}
