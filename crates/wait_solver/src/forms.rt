//! Linear forms as numbers that change at a constant rate.

ghost use Rattle.aerie_base.specs.Ranges.{number_limit, rate_limit};
ghost use Rattle.std.specs.Prelude.{◌≡◌, ◌^◌, Some, IsTrue, true};
ghost use Rattle.aerie_base.specs.declared.values.Kind.TheVariants.{Int};
ghost use Rattle.aerie_base.specs.expressions.Typing.{operand_kind};
ghost use Rattle.aerie_base.specs.models.Conditions.{is_term};
ghost use Rattle.aerie_base.specs.models.Expressions.{is_kind_of};
ghost use Rattle.effect_cells.specs.Cells.{AreInRange};
ghost use Rattle.effect_cells.specs.Reads.{kind_on};
ghost use Rattle.effect_cells.specs.Solvable.{no_locals, is_form_for};
ghost use Rattle.effect_cells.specs.States.{is_in_range};
ghost use Rattle.wait_solver.specs.Lines.{state_line, operand_line, term_line, form_line, IsWithin};

use crate::lines::Line;
use aerie_base::{CellRead, Linear, Operand, Term, number_in};
use effect_cells::{CellState, Cells};

/// What is read of a state that is in range.
fn state_line(read: CellRead, state: &CellState) -> Line
    requires { is_in_range state.now ≡ true }
    ensures value { result ≡ state_line read (Some state.now) }
    ensures small { IsWithin number_limit rate_limit result }
{
    match (read, state) {
        (CellRead::Counter(_), CellState::Counter(number)) => Line::still(*number),
        (CellRead::Register(_), CellState::Register { value, .. }) => {
            Line::still(i128::from(number_in(value)))
        }
        (CellRead::Volume(_), CellState::Volume { volume, rate }) => Line {
            value: *volume,
            rate: *rate,
        },
        (CellRead::Rate(_), CellState::Volume { rate, .. }) => Line::still(*rate),
        _ => Line::still(0),
    }
}

/// A whole number that a cell has.
#[tactic(auto, using(crate::proofs::There::read_there, crate::proofs::There::there_in_range))]
fn operand_line(operand: Operand, cells: &Cells) -> Line
    requires range { AreInRange cells.now }
    requires kind { IsTrue (is_kind_of (operand_kind no_locals (kind_on cells.now) operand) Int) }
    ensures value { result ≡ operand_line cells.now operand }
    ensures small { IsWithin number_limit rate_limit result }
{
    match operand {
        Operand::Read(read) => state_line(read, &cells.state(read.cell())),
        Operand::Local(_) => Line::still(0),
    }
}

/// A coefficient times such a number.
fn term_line(term: &Term, cells: &Cells) -> Line
    requires range { AreInRange cells.now }
    requires term { IsTrue (is_term no_locals (kind_on cells.now) term.now) }
    ensures value { result ≡ term_line cells.now term.now }
    ensures small { IsWithin 1_000_000_000_000_000_000_000_000 1_000_000_000_000_000_000 result }
{
    operand_line(term.operand, cells).times(term.coefficient)
}

/// The linear form.
pub(crate) fn form_line(form: &Linear, cells: &Cells) -> Line
    requires range { AreInRange cells.now }
    requires form { IsTrue (is_form_for (kind_on cells.now) form.now) }
    ensures value { result ≡ form_line cells.now form.now }
    ensures small { IsWithin (2 ^ 101) (2 ^ 64) result }
{
    let mut sum = Line::still(form.constant);
    for term in form.terms.as_slice() {
        sum = sum.plus(term_line(term, cells));
    }
    sum
}
