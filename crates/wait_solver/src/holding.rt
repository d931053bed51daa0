//! What a condition answers after a time, and how long.

ghost use Rattle.std.specs.Prelude.{◌≡◌, ◌^◌, ℕ, [], Some, IsTrue, IsSome};
ghost use Rattle.aerie_base.specs.Ranges.{IsTime};
ghost use Rattle.aerie_base.specs.conditions.Holding.{holds_step, operand_value, side_value};
ghost use Rattle.aerie_base.specs.expressions.Arithmetic.{truth_in, compared};
ghost use Rattle.aerie_base.specs.declared.conditions.Cond.{Compare};
ghost use Rattle.aerie_base.specs.declared.conditions.Cond.TheOpen.Cond-F.{Same};
ghost use Rattle.aerie_base.specs.declared.operands.CellRead.TheVariants.{Register};
ghost use Rattle.aerie_base.specs.declared.values.Kind.TheVariants.{Truth};
ghost use Rattle.aerie_base.specs.expressions.Typing.{operand_kind};
ghost use Rattle.aerie_base.specs.models.Conditions.{may_equal};
ghost use Rattle.aerie_base.specs.models.Expressions.{is_kind_of};
ghost use Rattle.effect_cells.specs.Cells.{AreInRange};
ghost use Rattle.effect_cells.specs.Reads.{kind_on, state_kind, value_on, state_value};
ghost use Rattle.effect_cells.specs.Solvable.{no_locals, is_form_for, filled_side_kind, may_be_solved, may_be_solved_by_fold};
ghost use Rattle.wait_solver.specs.Lines.{line_value, IsWithin};
ghost use Rattle.wait_solver.specs.Outlooks.{IsSoon, IsOutlookOf};

use crate::changes::until_change;
use crate::forms::form_line;
use crate::lines::Line;
use crate::outlooks::{Outlook, negated, of_both, of_either, standing};
use aerie_base::{
    CellRead, Comparison, Cond, Linear, Operand, Simple, Value, same_value, truth_in,
};
use effect_cells::{CellState, Cells};

/// The truth that is read of a state.
fn state_truth(read: CellRead, state: &CellState) -> bool
    ensures { result ≡ truth_in (state_value read (Some state.now)) }
{
    match state.read(read) {
        Ok(value) => truth_in(&value),
        Err(_) => false,
    }
}

/// A truth that a cell has, which stands while time passes.
#[tactic(auto, using(crate::proofs::There::read_there))]
fn flag(operand: Operand, cells: &Cells) -> bool
    requires { IsTrue (is_kind_of (operand_kind no_locals (kind_on cells.now) operand) Truth) }
    ensures { result ≡ truth_in (operand_value (value_on cells.now) [] operand) }
{
    match operand {
        Operand::Read(read) => state_truth(read, &cells.state(read.cell())),
        Operand::Local(_) => false,
    }
}

/// The value of a state that is a register's.
fn register_value(state: &CellState) -> Value
    requires { IsSome (state_kind (Register 0) (Some state.now)) }
    ensures { (cell : ℕ) → result ≡ state_value (Register cell) (Some state.now) }
{
    match state {
        CellState::Register { value, .. } => *value,
        _ => Value::Truth(false),
    }
}

/// The value of a side of an equality, which stands while time passes.
fn side(side: &Simple, cells: &Cells) -> Value
    requires { IsSome (filled_side_kind (kind_on cells.now) side.now) }
    ensures { result ≡ side_value (value_on cells.now) [] side.now }
{
    match side {
        Simple::Literal(value) => *value,
        Simple::Operand(Operand::Read(CellRead::Register(cell))) => register(*cell, cells),
        Simple::Operand(_) => Value::Truth(false),
    }
}

/// The value of a register.
#[tactic(auto, using(crate::proofs::There::register_there, crate::proofs::There::state_there))]
fn register(cell: u16, cells: &Cells) -> Value
    requires { IsSome (kind_on cells.now (Register cell)) }
    ensures { result ≡ value_on cells.now (Register cell) }
{
    register_value(&cells.state(cell))
}

/// Whether the two sides are equal, or unequal.
#[tactic(auto, using(crate::proofs::Steady::typed_left, crate::proofs::Steady::typed_right))]
fn equality(left: &Simple, right: &Simple, equal: bool, cells: &Cells) -> bool
    requires { IsTrue (may_equal (filled_side_kind (kind_on cells.now) left.now) (filled_side_kind (kind_on cells.now) right.now)) }
    ensures { result ≡ holds_step (Same left.now right.now equal) (value_on cells.now) [] }
{
    let same = same_value(&side(left, cells), &side(right, cells));
    if equal { same } else { !same }
}

/// Whether a comparison holds between two numbers that move, after so many microseconds.
fn compares_at(left: Line, how: Comparison, right: Line, dt: u128) -> bool
    requires left { IsWithin (2 ^ 101) (2 ^ 64) left }
    requires right { IsWithin (2 ^ 101) (2 ^ 64) right }
    requires time { IsTime dt }
    ensures { result ≡ compared how (line_value left dt) (line_value right dt) }
{
    how.holds(left.at(dt), right.at(dt))
}

/// The outlook of a comparison of two linear forms so many microseconds from now.
fn comparison(left: &Linear, how: Comparison, right: &Linear, cells: &Cells, dt: u128) -> Outlook
    requires range { AreInRange cells.now }
    requires time { IsTime dt }
    requires left { IsTrue (is_form_for (kind_on cells.now) left.now) }
    requires right { IsTrue (is_form_for (kind_on cells.now) right.now) }
    ensures tells { IsOutlookOf cells.now (Compare left.now how right.now) dt result }
    ensures soon { IsSoon result.stays }
{
    let left = form_line(left, cells);
    let right = form_line(right, cells);
    let holds = compares_at(left, how, right, dt);
    let stays = until_change(left.gap_from(right, dt));
    Outlook { holds, stays }
}

/// What the condition answers so many microseconds from now, and how long at least it answers so, in one pass over the
/// condition.
pub(crate) fn outlook(condition: &Cond, cells: &Cells, dt: u128) -> Outlook
    requires range { AreInRange cells.now }
    requires time { IsTime dt }
    requires condition { IsTrue (may_be_solved (kind_on cells.now) condition.now) }
    ensures tells { IsOutlookOf cells.now condition.now dt result }
    ensures soon { IsSoon result.stays }
{
    outlook_by_fold(condition, cells, dt)
}

/// The same over the fold, which is the form for a proof of the recursion.
fn outlook_by_fold(condition: &Cond, cells: &Cells, dt: u128) -> Outlook
    requires range { AreInRange cells.now }
    requires time { IsTime dt }
    requires condition { IsTrue (may_be_solved_by_fold (kind_on cells.now) condition.now) }
    ensures tells { IsOutlookOf cells.now condition.now dt result }
    ensures soon { IsSoon result.stays }
{
    match condition {
        Cond::Literal(truth) => standing(*truth),
        Cond::Flag(operand) => standing(flag(*operand, cells)),
        Cond::Same { left, right, equal } => standing(equality(left, right, *equal, cells)),
        Cond::Compare { left, how, right } => comparison(left, *how, right, cells, dt),
        Cond::Not(part) => negated(outlook_by_fold(part.get(), cells, dt)),
        Cond::And(left, right) => {
            let left = outlook_by_fold(left.get(), cells, dt);
            let right = outlook_by_fold(right.get(), cells, dt);
            of_both(left, right)
        }
        Cond::Or(left, right) => {
            let left = outlook_by_fold(left.get(), cells, dt);
            let right = outlook_by_fold(right.get(), cells, dt);
            of_either(left, right)
        }
    }
}
