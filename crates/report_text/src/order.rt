//! The order of parameters by name.

ghost use Rattle.std.specs.Prelude.{◌≡◌, ◌<◌, ◌≤◌, IfOk, IfErr, OnOk, length};
ghost use Rattle.std.specs.List.{All};
ghost use Rattle.report_text.specs.ArgumentOrder.{name_numbered, order_of, names_of_parameters, put_number, with_number};

use aerie_base::{List, Name, OutOfMemory, Parameter};
use std::alloc::Global;
use std::cmp::Ordering;

/// The numbers of an activity type's parameters in the order of the bytes of their names. A type has at most 16.
pub(crate) fn order_of(alloc: Global, parameters: &[Parameter]) -> Result<List<usize>, OutOfMemory>
    ensures { IfOk result (λ order. order ≡ order_of (names_of_parameters parameters.now)) }
{
    let mut order = List::with_capacity(alloc, parameters.len())?;
    for number in 0..parameters.len() {
        put_number(&mut order, parameters, number)?;
    }
    Ok(order)
}

/// Puts one number more where its name belongs, in place of one with the same name.
fn put_number(
    order: &mut List<usize>,
    parameters: &[Parameter],
    number: usize,
) -> Result<(), OutOfMemory>
    requires number { number < length parameters.now }
    requires order { All (λ other. other < length parameters.now) order.old }
    ensures { OnOk result (order.new ≡ put_number (names_of_parameters parameters.now) number order.old) }
{
    match place_of(order.as_slice(), parameters, number) {
        Ok(at) => {
            order.items[at] = number;
            Ok(())
        }
        Err(at) => Ok(order.items.insert(at, number)?),
    }
}

/// The position of a number with the same name, or else the one where the number belongs.
fn place_of(order: &[usize], parameters: &[Parameter], number: usize) -> Result<usize, usize>
    requires number { number < length parameters.now }
    requires order { All (λ other. other < length parameters.now) order.now }
    ensures placed { with_number order.now number result ≡ put_number (names_of_parameters parameters.now) number order.now }
    ensures same { IfOk result (λ at. at < length order.now) }
    ensures within { IfErr result (λ at. at ≤ length order.now) }
{
    for at in 0..order.len() {
        match name_of(parameters, number).cmp(name_of(parameters, order[at])) {
            Ordering::Less => return Err(at),
            Ordering::Equal => return Ok(at),
            Ordering::Greater => {}
        }
    }
    Err(order.len())
}

/// The name of a parameter.
fn name_of(parameters: &[Parameter], number: usize) -> &Name
    requires { number < length parameters.now }
    ensures { result.now ≡ name_numbered (names_of_parameters parameters.now) number }
{
    &parameters[number].name
}
