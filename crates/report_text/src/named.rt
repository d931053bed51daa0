//! The resources and activity types that constraints name.

ghost use Rattle.std.specs.Prelude.{◌≡◌, IfOk, OnOk, nat_eq};
ghost use Rattle.std.specs.List.{list_any};
ghost use Rattle.report_text.specs.NamedByConstraints.{named_resources, named_types, noted, noted_all, reading_resources, resources_by_fold, rule_resources, rule_types, sum_resources, types_by_fold};

use aerie_base::{List, OutOfMemory};
use constraints::{Reading, Rule, RuleSum, Window};
use std::alloc::Global;

/// Whether a number is among these.
fn is_noted(numbers: &[u16], number: u16) -> bool
    ensures { result ≡ list_any (λ other. nat_eq other number) numbers.now }
{
    numbers.iter().any(|other| *other == number)
}

/// A number is noted, unless it is among those that are. These are few: a rule is short.
fn note(numbers: &mut List<u16>, number: u16) -> Result<(), OutOfMemory>
    ensures { OnOk result (numbers.new ≡ noted nat_eq numbers.old number) }
{
    if is_noted(numbers.as_slice(), number) {
        return Ok(());
    }
    numbers.push(number)
}

/// The activity types that a window names.
#[tactic(auto, using(crate::proofs::Noting::noted_append))]
fn note_types(numbers: &mut List<u16>, window: &Window) -> Result<(), OutOfMemory>
    ensures { OnOk result (numbers.new ≡ noted_all nat_eq numbers.old (types_by_fold window.now)) }
{
    match window {
        Window::And(left, right) | Window::Or(left, right) => {
            note_types(numbers, left.get())?;
            note_types(numbers, right.get())
        }
        Window::Not(part) => note_types(numbers, part.get()),
        Window::Shift { of, .. } => note_types(numbers, of.get()),
        Window::Longer { of, .. } => note_types(numbers, of.get()),
        Window::During(kind) => note(numbers, *kind),
        _ => Ok(()),
    }
}

/// The activity types that a rule names.
#[tactic(auto, using(crate::proofs::Noting::types_are))]
fn note_rule_types(numbers: &mut List<u16>, rule: &Rule) -> Result<(), OutOfMemory>
    ensures { OnOk result (numbers.new ≡ noted_all nat_eq numbers.old (rule_types rule.now)) }
{
    match rule {
        Rule::Plain(window) => note_types(numbers, window),
        Rule::Each { kind, window } => {
            note(numbers, *kind)?;
            note_types(numbers, window)
        }
        Rule::Forbid(one, other) => {
            note(numbers, *one)?;
            note(numbers, *other)
        }
    }
}

/// The activity types that a rule names, each once, in the order of the text.
pub(crate) fn named_types(alloc: Global, rule: &Rule) -> Result<List<u16>, OutOfMemory>
    ensures { IfOk result (λ kinds. kinds ≡ named_types rule.now) }
{
    let mut kinds = List::new(alloc);
    note_rule_types(&mut kinds, rule)?;
    Ok(kinds)
}

/// The resource that is read, where one is.
fn note_reading(numbers: &mut List<u16>, reading: &Reading) -> Result<(), OutOfMemory>
    ensures { OnOk result (numbers.new ≡ noted_all nat_eq numbers.old (reading_resources reading.now)) }
{
    match reading {
        Reading::Resource(number) => note(numbers, *number),
        Reading::Series { .. } => Ok(()),
    }
}

/// The resources that a sum reads.
#[tactic(auto, using(crate::proofs::Noting::noted_append))]
fn note_sum(numbers: &mut List<u16>, sum: &RuleSum) -> Result<(), OutOfMemory>
    ensures { OnOk result (numbers.new ≡ noted_all nat_eq numbers.old (sum_resources sum.now)) }
{
    let terms = sum.terms.as_slice();
    for term in terms {
        note_reading(numbers, &term.resource)?;
    }
    Ok(())
}

/// The resources that a window reads.
#[tactic(auto, using(crate::proofs::Noting::noted_append))]
fn note_resources(numbers: &mut List<u16>, window: &Window) -> Result<(), OutOfMemory>
    ensures { OnOk result (numbers.new ≡ noted_all nat_eq numbers.old (resources_by_fold window.now)) }
{
    match window {
        Window::Literal(_) | Window::During(_) | Window::DuringBound => Ok(()),
        Window::And(left, right) | Window::Or(left, right) => {
            note_resources(numbers, left.get())?;
            note_resources(numbers, right.get())
        }
        Window::Not(part) => note_resources(numbers, part.get()),
        Window::Shift { of, .. } => note_resources(numbers, of.get()),
        Window::Longer { of, .. } => note_resources(numbers, of.get()),
        Window::Truth(reading) => note_reading(numbers, reading),
        Window::Same { resource, .. } => note_reading(numbers, resource),
        Window::Compare { left, right, .. } => {
            note_sum(numbers, left)?;
            note_sum(numbers, right)
        }
    }
}

/// The resources that a rule reads.
#[tactic(auto, using(crate::proofs::Noting::resources_are))]
fn note_rule_resources(numbers: &mut List<u16>, rule: &Rule) -> Result<(), OutOfMemory>
    ensures { OnOk result (numbers.new ≡ noted_all nat_eq numbers.old (rule_resources rule.now)) }
{
    match rule {
        Rule::Plain(window) => note_resources(numbers, window),
        Rule::Each { window, .. } => note_resources(numbers, window),
        Rule::Forbid(_, _) => Ok(()),
    }
}

/// The resources that a rule reads, each once, in the order of the text.
pub(crate) fn named_resources(alloc: Global, rule: &Rule) -> Result<List<u16>, OutOfMemory>
    ensures { IfOk result (λ numbers. numbers ≡ named_resources rule.now) }
{
    let mut numbers = List::new(alloc);
    note_rule_resources(&mut numbers, rule)?;
    Ok(numbers)
}
