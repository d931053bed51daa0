//! How arguments are written: by the names of their parameters, in the order of the bytes of these.

ghost use Rattle.std.specs.Prelude.{◌≡◌, ◌++◌, ◌≤◌, ◌<◌, [], OnOk, length};
ghost use Rattle.std.specs.List.{All};
ghost use Rattle.json_line.specs.Json.{object_of};
ghost use Rattle.json_line.specs.Parts.{data_tokens};
ghost use Rattle.plan_edit.specs.ShownPlan.{argument_fields};
ghost use Rattle.report_text.specs.ArgumentOrder.{order_of, names_of_parameters};
ghost use Rattle.report_text.specs.SpanLines.{arguments_data};

use crate::order::order_of;
use crate::wordings::Wording;
use aerie_base::{List, OutOfMemory, Parameter, Value};
use json_line::{JsonIn, JsonLine};

/// Values for the parameters of an activity type, which are written by the names of these.
#[derive(Drop)]
pub struct Arguments<'b> {
    /// The activity type, counted from 0 in the order of the model.
    pub kind: u16,
    /// A value for each parameter, in their order.
    pub values: &'b List<Value>,
}

impl<'a, 'b> JsonIn<Wording<'a>> for Arguments<'b> {
    ghost data_in = { λ model arguments. arguments_data model arguments.kind arguments.values.now };

    fn write_in(&self, wording: &Wording<'a>, line: &mut JsonLine) -> Result<(), OutOfMemory> {
        match wording.model().activities().get(usize::from(self.kind)) {
            Some(activity) => write_arguments(
                line,
                wording,
                activity.parameters.as_slice(),
                wording.order(self.kind),
                self.values.as_slice(),
            ),
            None => write_none(line),
        }
    }
}

/// No argument.
#[tactic(auto, using(json_line::proofs::Steps::part_by_part))]
pub(crate) fn write_none(line: &mut JsonLine) -> Result<(), OutOfMemory>
    ensures { OnOk result (line.new ≡ line.old ++ data_tokens (object_of [])) }
{
    line.begin_object()?;
    line.end_object()
}

/// Values by the names of these parameters, of which some may have none.
pub(crate) fn write_arguments<'a>(
    line: &mut JsonLine,
    wording: &Wording<'a>,
    parameters: &[Parameter],
    order: &[usize],
    values: &[Value],
) -> Result<(), OutOfMemory>
    requires order { order.now ≡ order_of (names_of_parameters parameters.now) }
    ensures { OnOk result (line.new ≡ line.old ++ data_tokens (object_of (argument_fields wording.now.enums parameters.now values.now))) }
{
    if parameters.len() <= values.len() {
        return write_in_order(line, wording, parameters, order, values);
    }
    let given = &parameters[..values.len()];
    let order = order_of(wording.alloc(), given)?;
    write_in_order(line, wording, given, order.as_slice(), values)
}

/// A value by the name of each of these parameters.
fn write_in_order<'a>(
    line: &mut JsonLine,
    wording: &Wording<'a>,
    parameters: &[Parameter],
    order: &[usize],
    values: &[Value],
) -> Result<(), OutOfMemory>
    requires order { order.now ≡ order_of (names_of_parameters parameters.now) }
    requires within { All (λ number. number < length parameters.now) order.now }
    requires values { length parameters.now ≤ length values.now }
    ensures { OnOk result (line.new ≡ line.old ++ data_tokens (object_of (argument_fields wording.now.enums parameters.now values.now))) }
{
    line.begin_object()?;
    for number in order {
        line.member_in(parameters[*number].name.as_str(), wording, &values[*number])?;
    }
    line.end_object()
}
