//! Statements that begin with a name: changes of locals and of cells.

ghost use Rattle.std.specs.Prelude.{◌≡◌};
ghost use Rattle.readers.specs.Implements.{Consumes};
ghost use Rattle.model_reader.specs.reading.Statements.{change_sign_at, statement_of, change_at};

use crate::raw::{RawExpr, RawName, RawStmt, RawStmtKind};
use crate::reading::assignment_operator::AssignmentOperator;
use crate::reading::expressions::expr;
use crate::reading::names::{one_standing_for, raw_name};
use aerie_text::Sort;
use readers::{Reader, Refusal, ended_by};
use std::alloc::Global;

/// Reads how what the name stands for is changed: a sign, or a dot, a part of an accumulator and the sign that adds to it.
#[tactic(auto, unfolding(crate::specs::reading::Statements::change_sign_at, crate::specs::reading::Statements::part_change_at, crate::specs::reading::Statements::part_change_word_at))]
fn change_sign(reader: &mut Reader) -> Result<AssignmentOperator, Refusal>
    ensures { Consumes change_sign_at reader.old reader.new result }
{
    let signs = [
        (Sort::Assign, AssignmentOperator::Assign),
        (Sort::PlusAssign, AssignmentOperator::Add),
        (Sort::ColonAssign, AssignmentOperator::Put),
    ];
    let parts = [
        (Sort::Volume, AssignmentOperator::AddVolume),
        (Sort::Rate, AssignmentOperator::AddRate),
    ];
    if reader.next_is_one_of(&[Sort::Assign, Sort::PlusAssign, Sort::ColonAssign]) {
        one_standing_for(reader, &signs)
    } else {
        reader.take(Sort::Dot)?;
        let change = one_standing_for(reader, &parts)?;
        ended_by(reader, Sort::PlusAssign, change)
    }
}

/// What the change is as a statement.
fn statement_of(change: AssignmentOperator, name: RawName, value: RawExpr) -> RawStmtKind
    ensures { result ≡ statement_of change name value }
{
    match change {
        AssignmentOperator::Assign => RawStmtKind::Assign { name, value },
        AssignmentOperator::Add => RawStmtKind::Add { name, value },
        AssignmentOperator::Put => RawStmtKind::Put { name, value },
        AssignmentOperator::AddVolume => RawStmtKind::AddVolume { name, value },
        AssignmentOperator::AddRate => RawStmtKind::AddRate { name, value },
    }
}

/// Reads the name of a local or a cell, and its change.
#[tactic(auto, unfolding(crate::specs::reading::Statements::change_at))]
pub fn change(alloc: Global, reader: &mut Reader) -> Result<RawStmt, Refusal>
    ensures { Consumes change_at reader.old reader.new result }
{
    let name = raw_name(alloc, reader)?;
    let at = name.at;
    let change = change_sign(reader)?;
    let value = expr(alloc, reader)?;
    let what = statement_of(change, name, value);
    ended_by(reader, Sort::Semicolon, RawStmt { at, what })
}
