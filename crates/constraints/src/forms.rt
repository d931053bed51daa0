//! What a window speaks of.

ghost use Rattle.std.specs.Prelude.{◌≡◌};
ghost use Rattle.constraints.specs.NamedParts.{reads_resource, sum_reads_resource, names_resource, names_type, names_some_type};

use crate::types::{Reading, RuleSum, Window};

/// Whether the resource with the number is read.
fn reads_resource(reading: &Reading, number: u16) -> bool
    ensures { result ≡ reads_resource number reading.now }
{
    match reading {
        Reading::Resource(other) => *other == number,
        Reading::Series { .. } => false,
    }
}

/// Whether a term of the sum reads the resource with the number.
fn sum_reads_resource(sum: &RuleSum, number: u16) -> bool
    ensures { result ≡ sum_reads_resource number sum.now }
{
    sum.terms
        .as_slice()
        .iter()
        .any(|term| reads_resource(&term.resource, number))
}

/// Whether the window names the resource with the number. It decides what is made beforehand.
pub(crate) fn names_resource(window: &Window, number: u16) -> bool
    ensures { result ≡ names_resource number window.now }
{
    match window {
        Window::Literal(_) | Window::During(_) | Window::DuringBound => false,
        Window::And(left, right) | Window::Or(left, right) => {
            names_resource(left.get(), number) || names_resource(right.get(), number)
        }
        Window::Not(part) => names_resource(part.get(), number),
        Window::Shift { of, .. } => names_resource(of.get(), number),
        Window::Longer { of, .. } => names_resource(of.get(), number),
        Window::Truth(reading) => reads_resource(reading, number),
        Window::Same { resource, .. } => reads_resource(resource, number),
        Window::Compare { left, right, .. } => {
            sum_reads_resource(left, number) || sum_reads_resource(right, number)
        }
    }
}

/// Whether the window names the activity type with the number. It decides what is made beforehand.
pub(crate) fn names_type(window: &Window, kind: u16) -> bool
    ensures { result ≡ names_type kind window.now }
{
    match window {
        Window::And(left, right) | Window::Or(left, right) => {
            names_type(left.get(), kind) || names_type(right.get(), kind)
        }
        Window::Not(part) => names_type(part.get(), kind),
        Window::Shift { of, .. } => names_type(of.get(), kind),
        Window::Longer { of, .. } => names_type(of.get(), kind),
        Window::During(other) => *other == kind,
        _ => false,
    }
}

/// Whether the window names some activity type. It decides what is made beforehand.
pub(crate) fn names_some_type(window: &Window) -> bool
    ensures { result ≡ names_some_type window.now }
{
    match window {
        Window::And(left, right) | Window::Or(left, right) => {
            names_some_type(left.get()) || names_some_type(right.get())
        }
        Window::Not(part) => names_some_type(part.get()),
        Window::Shift { of, .. } => names_some_type(of.get()),
        Window::Longer { of, .. } => names_some_type(of.get()),
        Window::During(_) => true,
        _ => false,
    }
}
