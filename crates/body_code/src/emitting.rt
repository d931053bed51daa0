//! The instructions of statements, one behind another. An `if` and a `while` take the place of their test first, and write
//! the test there once they know where its block ends.

ghost use Rattle.std.specs.Prelude.{◌≡◌, ◌+◌, ◌<◌, ◌^◌, [], ◌∷◌, ◌++◌, length, slice_set, OnOk};
ghost use Rattle.aerie_base.specs.statements.Places.{size, block_size};
ghost use Rattle.body_code.specs.FlatCode.{code_of, block_code};
ghost use Rattle.body_code.specs.declared.instructions.Instruction.TheVariants.{Test, Jump};

use crate::instructions::Instruction;
use aerie_base::{Expr, OutOfMemory, Stmt};
use std::alloc::Global;

/// Adds an instruction.
pub(crate) fn put(code: &mut Vec<Instruction>, instruction: Instruction) -> Result<(), OutOfMemory>
    ensures { OnOk result (code.new.items ≡ code.old.items ++ instruction ∷ []) }
{
    code.push(instruction)?;
    Ok(())
}

/// Writes over an instruction.
fn set(code: &mut Vec<Instruction>, at: usize, instruction: Instruction)
    requires { at < length code.old.items }
    ensures { code.new.items ≡ slice_set code.old.items at instruction }
{
    code[at] = instruction;
}

/// Writes the test of an `if` to its place, and the jump behind its first block to `middle`.
fn patch_if(
    alloc: Global,
    code: &mut Vec<Instruction>,
    test: &Expr,
    at: usize,
    middle: usize,
) -> Result<(), OutOfMemory>
    requires at { at < length code.old.items }
    requires middle { middle < length code.old.items }
    requires room { length code.old.items < 2 ^ 32 }
    ensures { OnOk result (code.new.items ≡ slice_set (slice_set code.old.items at (Test test.now (middle + 1))) middle (Jump (length code.old.items))) }
{
    let test = test.copy(alloc)?;
    let otherwise = (middle + 1) as u32;
    let end = code.len() as u32;
    set(code, at, Instruction::Test { test, otherwise });
    set(code, middle, Instruction::Jump(end));
    Ok(())
}

/// Writes the test of a `while` to its place.
fn patch_while(
    alloc: Global,
    code: &mut Vec<Instruction>,
    test: &Expr,
    at: usize,
) -> Result<(), OutOfMemory>
    requires at { at < length code.old.items }
    requires room { length code.old.items < 2 ^ 32 }
    ensures { OnOk result (code.new.items ≡ slice_set code.old.items at (Test test.now (length code.old.items))) }
{
    let test = test.copy(alloc)?;
    let otherwise = code.len() as u32;
    set(code, at, Instruction::Test { test, otherwise });
    Ok(())
}

/// Adds the code of a statement.
#[cycle(emit)]
fn emit(alloc: Global, code: &mut Vec<Instruction>, stmt: &Stmt) -> Result<(), OutOfMemory>
    requires { length code.old.items + size stmt.now < 2 ^ 32 }
    ensures { OnOk result (code.new.items ≡ code.old.items ++ code_of stmt.now (length code.old.items)) }
{
    match stmt {
        Stmt::If { test, yes, no } => {
            let at = code.len();
            put(code, Instruction::End)?;
            emit_block(alloc, code, yes.as_slice())?;
            let middle = code.len();
            put(code, Instruction::End)?;
            emit_block(alloc, code, no.as_slice())?;
            patch_if(alloc, code, test, at, middle)
        }
        Stmt::While { test, body } => {
            let at = code.len();
            put(code, Instruction::End)?;
            emit_block(alloc, code, body.as_slice())?;
            put(code, Instruction::Jump(at as u32))?;
            patch_while(alloc, code, test, at)
        }
        _ => put(code, Instruction::Do(stmt.copy(alloc)?)),
    }
}

/// Adds the code of a block.
#[cycle(emit)]
pub(crate) fn emit_block(
    alloc: Global,
    code: &mut Vec<Instruction>,
    block: &[Stmt],
) -> Result<(), OutOfMemory>
    requires { length code.old.items + block_size block.now < 2 ^ 32 }
    ensures { OnOk result (code.new.items ≡ code.old.items ++ block_code block.now (length code.old.items)) }
{
    for stmt in block {
        emit(alloc, code, stmt)?;
    }
    Ok(())
}
