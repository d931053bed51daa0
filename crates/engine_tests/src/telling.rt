//! What the instants of a run are, as a line of text.

use aerie_base::Value;
use effect_cells::CellState;
use run_data::{Instant, Run};
use std::alloc::{AllocError, Global};

fn value(alloc: Global, value: &Value) -> Result<String, AllocError> {
    match value {
        Value::Int(number) => format!(in alloc; "{}", number.get()),
        Value::Truth(truth) => format!(in alloc; "{truth}"),
        Value::Variant { kind, number } => format!(in alloc; "{kind}.{number}"),
    }
}

fn state(alloc: Global, state: &CellState) -> Result<String, AllocError> {
    match state {
        CellState::Counter(number) => format!(in alloc; "{number}"),
        CellState::Register {
            value: of,
            conflicted,
        } => {
            let of = value(alloc, of)?;
            let mark = if *conflicted { "!" } else { "" };
            format!(in alloc; "{}{mark}", of.as_str())
        }
        CellState::Volume { volume, rate } => format!(in alloc; "{volume}{rate:+}"),
    }
}

/// Puts a word behind others.
fn put(text: &mut String, word: &str) -> Result<(), AllocError> {
    if !text.is_empty() {
        text.push_str(" ")?;
    }
    text.push_str(word)
}

fn instant(alloc: Global, instant: &Instant) -> Result<String, AllocError> {
    let mut text = format!(in alloc; "{}/{}", instant.time.get(), instant.batches.len())?;
    for (cell, after) in instant.changed.as_slice() {
        let after = state(alloc, after)?;
        let changed = format!(in alloc; ",{cell}={}", after.as_str())?;
        text.push_str(changed.as_str())?;
    }
    Ok(text)
}

/// The instants: of each its time, its number of batches and the cells that it changed, as `5/1,0=3`.
pub(crate) fn instants(alloc: Global, run: &Run) -> Result<String, AllocError> {
    let mut text = String::new(alloc);
    for each in run.instants.as_slice() {
        let word = instant(alloc, each.get())?;
        put(&mut text, word.as_str())?;
    }
    Ok(text)
}
