//! How cells are written.

ghost use Rattle.std.specs.Prelude.{◌≡◌, ◌++◌, OnOk, map};
ghost use Rattle.std.specs.List.{zip};
ghost use Rattle.serde_json.specs.Data.{array};
ghost use Rattle.serde_json.specs.View.{items_of};
ghost use Rattle.json_line.specs.Parts.{data_tokens};
ghost use Rattle.report_text.specs.Details.{accumulator_data, cell_data, counter_data, kept_data, named_cell_data, register_data, states_data};

use crate::wordings::Wording;
use aerie_base::{CellStart, Name, OutOfMemory, Value};
use effect_cells::CellState;
use json_line::{JsonIn, JsonLine};

/// The value of a register.
#[derive(Drop)]
struct KeptValue {
    value: Value,
}

impl<'a> JsonIn<Wording<'a>> for KeptValue {
    ghost data_in = { λ model kept. kept_data model.enums kept.value };

    fn write_in(&self, wording: &Wording<'a>, line: &mut JsonLine) -> Result<(), OutOfMemory> {
        match self.value {
            Value::Int(number) => line.digits(i128::from(number.get())),
            Value::Truth(_) | Value::Variant { .. } => self.value.write_in(wording, line),
        }
    }
}

/// A counter.
fn write_counter(line: &mut JsonLine, name: &Name, number: &i128) -> Result<(), OutOfMemory>
    ensures { OnOk result (line.new ≡ line.old ++ data_tokens (counter_data name.now number.now)) }
{
    line.begin_object()?;
    line.text_member("kind", "counter")?;
    line.member("name", name)?;
    line.member("value", number)?;
    line.end_object()
}

/// A register.
fn write_register<'a>(
    line: &mut JsonLine,
    wording: &Wording<'a>,
    name: &Name,
    value: Value,
    conflicted: bool,
) -> Result<(), OutOfMemory>
    ensures { OnOk result (line.new ≡ line.old ++ data_tokens (register_data wording.now name.now value conflicted)) }
{
    line.begin_object()?;
    line.member("conflicted", &conflicted)?;
    line.text_member("kind", "register")?;
    line.member("name", name)?;
    line.member_in("value", wording, &KeptValue { value })?;
    line.end_object()
}

/// An accumulator.
fn write_accumulator(
    line: &mut JsonLine,
    name: &Name,
    volume: &i128,
    rate: &i128,
) -> Result<(), OutOfMemory>
    ensures { OnOk result (line.new ≡ line.old ++ data_tokens (accumulator_data name.now volume.now rate.now)) }
{
    line.begin_object()?;
    line.text_member("kind", "accumulator")?;
    line.member("name", name)?;
    line.member("rate", rate)?;
    line.member("volume", volume)?;
    line.end_object()
}

/// A cell in a state.
fn write_cell<'a>(
    line: &mut JsonLine,
    wording: &Wording<'a>,
    name: &Name,
    state: &CellState,
) -> Result<(), OutOfMemory>
    ensures { OnOk result (line.new ≡ line.old ++ data_tokens (cell_data wording.now name.now state.now)) }
{
    match state {
        CellState::Counter(number) => write_counter(line, name, number),
        CellState::Register { value, conflicted } => {
            write_register(line, wording, name, *value, *conflicted)
        }
        CellState::Volume { volume, rate } => write_accumulator(line, name, volume, rate),
    }
}

/// The cells of a model, each in its state.
pub(crate) fn write_states<'a>(
    line: &mut JsonLine,
    wording: &Wording<'a>,
    states: &[CellState],
) -> Result<(), OutOfMemory>
    ensures { OnOk result (line.new ≡ line.old ++ data_tokens (states_data wording.now states.now)) }
{
    write_cells(line, wording, wording.model().cells(), states)
}

/// Cells, each in its state.
fn write_cells<'a>(
    line: &mut JsonLine,
    wording: &Wording<'a>,
    cells: &[(Name, CellStart)],
    states: &[CellState],
) -> Result<(), OutOfMemory>
    ensures { OnOk result (line.new ≡ line.old ++ data_tokens (array (items_of (map (named_cell_data wording.now) (zip cells.now states.now))))) }
{
    line.begin_array()?;
    for number in 0..cells.len().min(states.len()) {
        write_cell(line, wording, &cells[number].0, &states[number])?;
    }
    line.end_array()
}
