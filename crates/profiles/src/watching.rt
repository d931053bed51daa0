//! The cells that a linear resource reads.

ghost use Rattle.std.specs.Prelude.{◌≡◌, ◌≤◌, ◌<◌, ◌*◌, ◌*ℤ◌, ◌+ℤ◌, ◌+◌, ◌^◌, ◌++◌, length, map, IfOk, OnOk};
ghost use Rattle.std.specs.List.{All};
ghost use Rattle.std.specs.Int.RustNames.{unsigned_abs};
ghost use Rattle.effect_cells.specs.Cells.{initial};
ghost use Rattle.profiles.specs.States.{RiseFrom};
ghost use Rattle.profiles.specs.Watching.{IsModerate, IsWatchable, advanced, summed_line, read_number, read_rate, watched_on, watched_term};

use crate::states::{next_state, state_at_start};
use aerie_base::{CellRead, Model, Operand, OutOfMemory, Term, Time, product};
use effect_cells::CellState;
use std::alloc::Global;
use windows::Segment;

/// A term of a linear resource, with the state of its cell at a time of the run.
#[derive(Clone, Copy)]
pub(crate) struct Watched {
    /// What is read.
    pub(crate) read: CellRead,
    /// What it is multiplied by.
    pub(crate) coefficient: i64,
    /// The state of the cell.
    pub(crate) state: CellState,
}

/// Puts the cell of a term behind the others, as it begins.
fn watch(watched: &mut Vec<Watched>, model: &Model, term: &Term) -> Result<(), OutOfMemory>
    ensures { OnOk result (watched.new.items ≡ watched.old.items ++ watched_term (initial model.now) term.now) }
{
    match term.operand {
        Operand::Read(read) => {
            watched.push(Watched {
                read,
                coefficient: term.coefficient,
                state: state_at_start(model, read),
            })?;
            Ok(())
        }
        Operand::Local(_) => Ok(()),
    }
}

/// The cells of the terms as they begin.
pub(crate) fn watched_terms(
    alloc: Global,
    model: &Model,
    terms: &[Term],
) -> Result<Vec<Watched>, OutOfMemory>
    ensures { IfOk result (λ watched. watched.items ≡ watched_on (initial model.now) terms.now) }
{
    let mut watched = Vec::new(alloc);
    for term in terms {
        watch(&mut watched, model, term)?;
    }
    Ok(watched)
}

/// Each cell at the next instant, a time `dt` later.
fn advance(watched: &mut [Watched], dt: Time, changed: &[(u16, CellState)])
    requires watched { All IsWatchable watched.old }
    requires rise { RiseFrom 0 changed.now }
    ensures { watched.new ≡ map (advanced dt changed.now) watched.old }
{
    for each in watched.iter_mut() {
        each.state = next_state(each.state, each.read.cell(), dt, changed);
    }
}

/// The same of a vector.
pub(crate) fn advance_all(watched: &mut Vec<Watched>, dt: Time, changed: &[(u16, CellState)])
    requires watched { All IsWatchable watched.old.items }
    requires rise { RiseFrom 0 changed.now }
    ensures { watched.new.items ≡ map (advanced dt changed.now) watched.old.items }
{
    advance(watched.as_mut_slice(), dt, changed);
}

/// The number that is read of a cell.
fn number_of(watched: &Watched) -> i128
    requires { IsWatchable watched.now }
    ensures value { result ≡ read_number watched.now.read watched.now.state }
    ensures small { unsigned_abs result ≤ 1_000_000_000_000_000_000 }
{
    match (watched.read, watched.state) {
        (CellRead::Counter(_), CellState::Counter(number)) => number,
        (CellRead::Volume(_), CellState::Volume { volume, .. }) => volume,
        _ => 0,
    }
}

/// What is read of a cell rises by so much each microsecond.
fn rate_of(watched: &Watched) -> i128
    requires { IsWatchable watched.now }
    ensures value { result ≡ read_rate watched.now.read watched.now.state }
    ensures small { unsigned_abs result ≤ 1_000_000_000_000 }
{
    match (watched.read, watched.state) {
        (CellRead::Volume(_), CellState::Volume { rate, .. }) => rate,
        _ => 0,
    }
}

/// What one cell adds to the value.
fn value_part(watched: &Watched) -> i128
    requires { IsWatchable watched.now }
    ensures value { result ≡ watched.now.coefficient *ℤ read_number watched.now.read watched.now.state }
    ensures small { unsigned_abs result ≤ 1_000_000_000_000_000_000_000_000 }
{
    product(i128::from(watched.coefficient), number_of(watched))
}

/// What one cell adds to the rate.
fn rate_part(watched: &Watched) -> i128
    requires { IsWatchable watched.now }
    ensures value { result ≡ watched.now.coefficient *ℤ read_rate watched.now.read watched.now.state }
    ensures small { unsigned_abs result ≤ 1_000_000_000_000_000_000 }
{
    product(i128::from(watched.coefficient), rate_of(watched))
}

/// The sum of two numbers that are not too great.
fn plus(sum: i128, more: i128) -> i128
    requires { unsigned_abs sum + unsigned_abs more < 2 ^ 120 }
    ensures value { result ≡ sum +ℤ more }
    ensures small { unsigned_abs result ≤ unsigned_abs sum + unsigned_abs more }
{
    sum + more
}

/// The straight piece with one cell more.
fn with_cell(line: Segment, watched: &Watched) -> Segment
    requires watched { IsWatchable watched.now }
    requires value { unsigned_abs line.value ≤ 2 ^ 100 }
    requires rate { unsigned_abs line.rate ≤ 2 ^ 100 }
    ensures from { result.from ≡ line.from }
    ensures value { result.value ≡ line.value +ℤ watched.now.coefficient *ℤ read_number watched.now.read watched.now.state }
    ensures rate { result.rate ≡ line.rate +ℤ watched.now.coefficient *ℤ read_rate watched.now.read watched.now.state }
    ensures small_value { unsigned_abs result.value ≤ unsigned_abs line.value + 1_000_000_000_000_000_000_000_000 }
    ensures small_rate { unsigned_abs result.rate ≤ unsigned_abs line.rate + 1_000_000_000_000_000_000 }
{
    Segment {
        from: line.from,
        value: plus(line.value, value_part(watched)),
        rate: plus(line.rate, rate_part(watched)),
    }
}

/// The straight piece that they are from a time on.
pub(crate) fn line_from(from: Time, watched: &[Watched]) -> Segment
    requires watched { All IsWatchable watched.now }
    requires few { length watched.now ≤ 16 }
    ensures line { result ≡ summed_line from watched.now }
    ensures small { IsModerate result }
{
    let mut line = Segment {
        from,
        value: 0,
        rate: 0,
    };
    for each in watched {
        line = with_cell(line, each);
    }
    line
}
