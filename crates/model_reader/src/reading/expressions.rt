//! Expressions, the limit of their depth with them. The time is linear in the marks of an expression.

mod leaves;
mod nodes;
mod precedence;
mod signs;

ghost use Rattle.std.specs.Prelude.{◌≡◌, ◌<◌, ◌≤◌, IfOk};
ghost use Rattle.readers.specs.Implements.{Consumes};
ghost use Rattle.readers.specs.Parsed.{next_fits};
ghost use Rattle.model_reader.specs.reading.Expressions.{parenthesis_at, primary_at, unary_at, sign_before, operand_at, operation_at, product_at, sum_at, comparison_at, conjunction_at, disjunction_at, inner_readers, expr_at, begins_expr, is_compare_sign};

use crate::raw::RawExpr;
use crate::reading::expressions::leaves::{amount_leaf, named, truth_leaf};
use crate::reading::expressions::nodes::{behind_sign, binary, in_parentheses};
use crate::reading::expressions::precedence::Precedence;
use crate::reading::expressions::signs::{sign_before, unary_sign};
use crate::reading::with_height::WithHeight;
use aerie_base::{Comparison, Name, Number, Operator};
use aerie_text::Sort;
use readers::{Limit, Reader, Refusal, ended_by};
use std::alloc::Global;

/// How many levels an expression may have.
const MOST_LEVELS: usize = 64;

// ---- within a level that is open: it and those in it may be `room` levels

/// Reads a part of an expression within a level.
#[cycle(expression)]
fn inner(
    alloc: Global,
    reader: &mut Reader,
    room: usize,
    part: Precedence,
) -> Result<WithHeight, Refusal>
    requires levels { room ≤ 64 }
    ensures read { Consumes (inner_readers room part) reader.old reader.new result }
    ensures low { IfOk result (λ whole. whole.height < room) }
{
    if room == 0 {
        return Err(Refusal::Syntax);
    }
    match part {
        Precedence::Expr => disjunction(alloc, reader, room - 1),
        Precedence::Conjunction => conjunction(alloc, reader, room - 1),
        Precedence::Comparison => comparison(alloc, reader, room - 1),
        Precedence::Sum => sum(alloc, reader, room - 1),
        Precedence::Product => product(alloc, reader, room - 1),
        Precedence::Unary => unary(alloc, reader, room - 1),
    }
}

// ---- where `room` levels may be opened

/// Reads an expression in parentheses, where a level may be opened.
#[cycle(expression)]
#[tactic(auto, unfolding(crate::specs::reading::Expressions::parenthesis_at, crate::specs::reading::Expressions::parentheses_at))]
fn parenthesis(alloc: Global, reader: &mut Reader, room: usize) -> Result<WithHeight, Refusal>
    requires levels { room ≤ 64 }
    ensures read { Consumes (parenthesis_at room (inner_readers room)) reader.old reader.new result }
    ensures low { IfOk result (λ whole. whole.height ≤ room) }
{
    if !reader.next_is(Sort::OpenParenthesis) {
        return Err(Refusal::Syntax);
    }
    if room == 0 {
        return Err(Refusal::TooMany(Limit::Depth));
    }
    let at = reader.take(Sort::OpenParenthesis)?;
    let inner = inner(alloc, reader, room, Precedence::Expr)?;
    ended_by(reader, Sort::CloseParenthesis, in_parentheses(at, inner))
}

#[cycle(expression)]
#[tactic(auto, unfolding(crate::specs::reading::Expressions::primary_at))]
fn primary(alloc: Global, reader: &mut Reader, room: usize) -> Result<WithHeight, Refusal>
    requires levels { room ≤ 64 }
    ensures read { Consumes (primary_at room (inner_readers room)) reader.old reader.new result }
    ensures low { IfOk result (λ whole. whole.height ≤ room) }
{
    if reader.next_is_one_of(&[Sort::Number, Sort::Time]) {
        amount_leaf(reader)
    } else if reader.next_is(Sort::True) {
        truth_leaf(reader, true)
    } else if reader.next_is(Sort::False) {
        truth_leaf(reader, false)
    } else if reader.next_is(Sort::Name) {
        named(alloc, reader)
    } else {
        parenthesis(alloc, reader, room)
    }
}

#[cycle(expression)]
#[tactic(auto, unfolding(crate::specs::reading::Expressions::unary_at, crate::specs::reading::Expressions::signed_at))]
fn unary(alloc: Global, reader: &mut Reader, room: usize) -> Result<WithHeight, Refusal>
    requires levels { room ≤ 64 }
    ensures read { Consumes (unary_at room (inner_readers room)) reader.old reader.new result }
    ensures low { IfOk result (λ whole. whole.height ≤ room) }
{
    if !reader.next_is_one_of(&[Sort::Minus, Sort::Exclamation]) {
        return primary(alloc, reader, room);
    }
    if room == 0 {
        return Err(Refusal::TooMany(Limit::Depth));
    }
    let (at, sign) = unary_sign(reader)?;
    let operand = inner(alloc, reader, room, Precedence::Unary)?;
    Ok(behind_sign(alloc, at, sign, operand)?)
}

/// Reads an operator and the operand behind it, which is this part.
#[cycle(expression)]
#[tactic(auto, unfolding(crate::specs::reading::Expressions::operand_at))]
fn operand(
    alloc: Global,
    reader: &mut Reader,
    room: usize,
    part: Precedence,
) -> Result<(Operator, WithHeight), Refusal>
    requires levels { room ≤ 64 }
    ensures read { Consumes (operand_at (sign_before part) (inner_readers room part)) reader.old reader.new result }
    ensures low { IfOk result (λ operand. operand.1.height < room) }
{
    let operator = sign_before(reader, part)?;
    let right = inner(alloc, reader, room, part)?;
    Ok((operator, right))
}

/// The same behind the operand on the left.
#[cycle(expression)]
#[tactic(auto, unfolding(crate::specs::reading::Expressions::operation_at, crate::specs::reading::Expressions::operated_at))]
fn operation(
    alloc: Global,
    reader: &mut Reader,
    room: usize,
    part: Precedence,
    left: WithHeight,
) -> Result<WithHeight, Refusal>
    requires levels { room ≤ 64 }
    requires left { left.height ≤ room }
    ensures read { Consumes (operation_at room (sign_before part) (inner_readers room part) left) reader.old reader.new result }
    ensures low { IfOk result (λ whole. whole.height ≤ room) }
{
    if room <= left.height {
        return Err(Refusal::TooMany(Limit::Depth));
    }
    let (operator, right) = operand(alloc, reader, room, part)?;
    Ok(binary(alloc, operator, left, right)?)
}

#[cycle(expression)]
#[tactic(auto, unfolding(crate::specs::reading::Expressions::product_at, crate::specs::reading::Expressions::chain_at))]
fn product(alloc: Global, reader: &mut Reader, room: usize) -> Result<WithHeight, Refusal>
    requires levels { room ≤ 64 }
    ensures read { Consumes (product_at room (inner_readers room)) reader.old reader.new result }
    ensures low { IfOk result (λ whole. whole.height ≤ room) }
{
    let mut left = unary(alloc, reader, room)?;
    while reader.next_is_one_of(&[Sort::Star, Sort::Slash, Sort::Percent]) {
        left = operation(alloc, reader, room, Precedence::Unary, left)?;
    }
    Ok(left)
}

#[cycle(expression)]
#[tactic(auto, unfolding(crate::specs::reading::Expressions::sum_at, crate::specs::reading::Expressions::chain_at))]
fn sum(alloc: Global, reader: &mut Reader, room: usize) -> Result<WithHeight, Refusal>
    requires levels { room ≤ 64 }
    ensures read { Consumes (sum_at room (inner_readers room)) reader.old reader.new result }
    ensures low { IfOk result (λ whole. whole.height ≤ room) }
{
    let mut left = product(alloc, reader, room)?;
    while reader.next_is_one_of(&[Sort::Plus, Sort::Minus]) {
        left = operation(alloc, reader, room, Precedence::Product, left)?;
    }
    Ok(left)
}

#[cycle(expression)]
#[tactic(auto, unfolding(crate::specs::reading::Expressions::comparison_at))]
fn comparison(alloc: Global, reader: &mut Reader, room: usize) -> Result<WithHeight, Refusal>
    requires levels { room ≤ 64 }
    ensures read { Consumes (comparison_at room (inner_readers room)) reader.old reader.new result }
    ensures low { IfOk result (λ whole. whole.height ≤ room) }
{
    let left = sum(alloc, reader, room)?;
    if is_at_compare_sign(reader) {
        operation(alloc, reader, room, Precedence::Sum, left)
    } else {
        Ok(left)
    }
}

#[cycle(expression)]
#[tactic(auto, unfolding(crate::specs::reading::Expressions::conjunction_at, crate::specs::reading::Expressions::chain_at))]
fn conjunction(alloc: Global, reader: &mut Reader, room: usize) -> Result<WithHeight, Refusal>
    requires levels { room ≤ 64 }
    ensures read { Consumes (conjunction_at room (inner_readers room)) reader.old reader.new result }
    ensures low { IfOk result (λ whole. whole.height ≤ room) }
{
    let mut left = comparison(alloc, reader, room)?;
    while reader.next_is(Sort::DoubleAmpersand) {
        left = operation(alloc, reader, room, Precedence::Comparison, left)?;
    }
    Ok(left)
}

#[cycle(expression)]
#[tactic(auto, unfolding(crate::specs::reading::Expressions::disjunction_at, crate::specs::reading::Expressions::chain_at))]
fn disjunction(alloc: Global, reader: &mut Reader, room: usize) -> Result<WithHeight, Refusal>
    requires levels { room ≤ 64 }
    ensures read { Consumes (disjunction_at room (inner_readers room)) reader.old reader.new result }
    ensures low { IfOk result (λ whole. whole.height ≤ room) }
{
    let mut left = conjunction(alloc, reader, room)?;
    while reader.next_is(Sort::DoubleBar) {
        left = operation(alloc, reader, room, Precedence::Conjunction, left)?;
    }
    Ok(left)
}

/// Reads an expression, at whose beginning no level is open.
#[tactic(auto, unfolding(crate::specs::reading::Expressions::expr_at))]
pub fn expr(alloc: Global, reader: &mut Reader) -> Result<RawExpr, Refusal>
    ensures { Consumes expr_at reader.old reader.new result }
{
    let whole = disjunction(alloc, reader, MOST_LEVELS)?;
    Ok(whole.expr)
}

/// Whether the next mark compares two sums.
fn is_at_compare_sign(reader: &Reader) -> bool
    ensures { result ≡ next_fits is_compare_sign reader.now }
{
    reader.next_is_one_of(&[
        Sort::DoubleEqual,
        Sort::NotEqual,
        Sort::Less,
        Sort::LessEqual,
        Sort::Greater,
        Sort::GreaterEqual,
    ])
}

/// Whether the next mark begins an expression.
pub fn begins_expr(reader: &Reader) -> bool
    ensures { result ≡ next_fits begins_expr reader.now }
{
    reader.next_is_one_of(&[
        Sort::Minus,
        Sort::Exclamation,
        Sort::Number,
        Sort::Time,
        Sort::True,
        Sort::False,
        Sort::Name,
        Sort::OpenParenthesis,
    ])
}
