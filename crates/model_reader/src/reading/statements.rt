//! Statements and blocks, the limits of a body with them. The time is linear in the marks of a body.

mod changes;
mod simple;

ghost use Rattle.std.specs.Prelude.{◌≡◌, ◌<◌};
ghost use Rattle.readers.specs.Implements.{Consumes, MayConsume};
ghost use Rattle.readers.specs.Parsed.{next_fits};
ghost use Rattle.model_reader.specs.reading.Statements.{block_at, else_at, if_at, while_at, stmt_iteration_at, begins_stmt, stmts_by, inner_blocks, body_at};

use crate::raw::{RawStmt, RawStmtKind};
use crate::reading::body::Body;
use crate::reading::expressions::expr;
use crate::reading::statements::simple::{simple_iteration, with_stmt};
use aerie_base::List;
use aerie_text::Sort;
use readers::{Limit, Reader, Refusal, ended_by};
use std::alloc::Global;

/// How many blocks may stand inside one another.
const MOST_BLOCKS: usize = 64;

/// How many statements a body may have, with those in its blocks.
const MOST_STATEMENTS: usize = 4_096;

/// Whether the next mark begins a statement.
fn begins_stmt(reader: &Reader) -> bool
    ensures { result ≡ next_fits begins_stmt reader.now }
{
    reader.next_is_one_of(&[
        Sort::Let,
        Sort::Name,
        Sort::Delay,
        Sort::Wait,
        Sort::Spawn,
        Sort::Call,
        Sort::If,
        Sort::While,
        Sort::Return,
    ])
}

// ---- blocks: `room` of them may still be opened inside one another, and the body may still have `spare` statements

/// Reads the statements of a block.
#[cycle(statement)]
fn nested(alloc: Global, reader: &mut Reader, room: usize, spare: usize) -> Result<Body, Refusal>
    ensures { MayConsume (inner_blocks room spare) reader.old reader.new result }
{
    if room > 0 {
        return stmts(alloc, reader, room - 1, spare);
    }
    Err(Refusal::Syntax)
}

/// Reads a block, if it may be opened.
#[cycle(statement)]
#[tactic(auto, unfolding(crate::specs::reading::Statements::block_at, crate::specs::reading::Statements::opened_block_at))]
fn block(alloc: Global, reader: &mut Reader, room: usize, spare: usize) -> Result<Body, Refusal>
    ensures { Consumes (block_at room (inner_blocks room) spare) reader.old reader.new result }
{
    if !reader.next_is(Sort::OpenBrace) {
        return Err(Refusal::Syntax);
    }
    if room == 0 {
        return Err(Refusal::TooMany(Limit::Depth));
    }
    reader.take(Sort::OpenBrace)?;
    let inner = nested(alloc, reader, room, spare)?;
    ended_by(reader, Sort::CloseBrace, inner)
}

/// Reads `else` and its block, or nothing.
#[cycle(statement)]
#[tactic(auto, unfolding(crate::specs::reading::Statements::else_at, crate::specs::reading::Statements::else_block_at))]
fn else_(alloc: Global, reader: &mut Reader, room: usize, spare: usize) -> Result<Body, Refusal>
    ensures { MayConsume (else_at room (inner_blocks room) spare) reader.old reader.new result }
{
    if reader.next_is(Sort::Else) {
        reader.take(Sort::Else)?;
        block(alloc, reader, room, spare)
    } else {
        let stmts = List::new(alloc);
        Ok(Body { stmts, spare })
    }
}

// ---- statements with blocks

/// Reads `if`, its test and its blocks.
#[cycle(statement)]
#[tactic(auto, unfolding(crate::specs::reading::Statements::if_at, crate::specs::reading::Statements::choice_at))]
fn if_(alloc: Global, reader: &mut Reader, room: usize, body: Body) -> Result<Body, Refusal>
    requires spare { 0 < body.spare }
    ensures { Consumes (if_at room (inner_blocks room) body) reader.old reader.new result }
{
    let at = reader.take(Sort::If)?;
    let test = expr(alloc, reader)?;
    let first = block(alloc, reader, room, body.spare - 1)?;
    let second = else_(alloc, reader, room, first.spare)?;
    let spare = second.spare;
    let what = RawStmtKind::If {
        test,
        yes: first.stmts,
        no: second.stmts,
    };
    Ok(with_stmt(body, spare, RawStmt { at, what })?)
}

/// Reads `while`, its test and its block.
#[cycle(statement)]
#[tactic(auto, unfolding(crate::specs::reading::Statements::while_at))]
fn while_(alloc: Global, reader: &mut Reader, room: usize, body: Body) -> Result<Body, Refusal>
    requires spare { 0 < body.spare }
    ensures { Consumes (while_at room (inner_blocks room) body) reader.old reader.new result }
{
    let at = reader.take(Sort::While)?;
    let test = expr(alloc, reader)?;
    let inner = block(alloc, reader, room, body.spare - 1)?;
    let spare = inner.spare;
    let what = RawStmtKind::While {
        test,
        body: inner.stmts,
    };
    Ok(with_stmt(body, spare, RawStmt { at, what })?)
}

// ---- statements, each put behind the statements of the block so far

/// Reads a statement, if the body may have one more.
#[cycle(statement)]
#[tactic(auto, unfolding(crate::specs::reading::Statements::stmt_iteration_at, crate::specs::reading::Statements::stmt_at))]
fn stmt_iteration(
    alloc: Global,
    reader: &mut Reader,
    room: usize,
    body: Body,
) -> Result<Body, Refusal>
    ensures { Consumes (stmt_iteration_at room (inner_blocks room) body) reader.old reader.new result }
{
    if body.spare == 0 {
        return Err(Refusal::TooMany(Limit::Statements));
    }
    if reader.next_is(Sort::If) {
        if_(alloc, reader, room, body)
    } else if reader.next_is(Sort::While) {
        while_(alloc, reader, room, body)
    } else {
        simple_iteration(alloc, reader, body)
    }
}

/// Reads statements, as far as there are any.
#[cycle(statement)]
#[tactic(auto, unfolding(crate::specs::reading::Statements::stmts_by))]
fn stmts(alloc: Global, reader: &mut Reader, room: usize, spare: usize) -> Result<Body, Refusal>
    ensures { MayConsume (stmts_by room (inner_blocks room) spare) reader.old reader.new result }
{
    let stmts = List::new(alloc);
    let mut body = Body { stmts, spare };
    while begins_stmt(reader) {
        body = stmt_iteration(alloc, reader, room, body)?;
    }
    Ok(body)
}

/// Reads the statements of a body.
#[tactic(auto, unfolding(crate::specs::reading::Statements::body_at))]
pub fn body(alloc: Global, reader: &mut Reader) -> Result<List<RawStmt>, Refusal>
    ensures { MayConsume body_at reader.old reader.new result }
{
    let body = stmts(alloc, reader, MOST_BLOCKS, MOST_STATEMENTS)?;
    Ok(body.stmts)
}
