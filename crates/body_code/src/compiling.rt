ghost use Rattle.std.specs.Prelude.{◌≡◌, ◌≤◌, IfOk};
ghost use Rattle.aerie_base.specs.models.Limits.{statement_limit};
ghost use Rattle.aerie_base.specs.statements.Places.{block_count};
ghost use Rattle.body_code.specs.FlatCode.{body_code};
ghost use Rattle.body_code.specs.Denoting.{IsCodeOf};

use crate::codes::Code;
use crate::emitting::{emit_block, put};
use crate::instructions::Instruction;
use aerie_base::{OutOfMemory, Stmt};
use std::alloc::Global;

/// The flat code of a body of at most 4,096 statements. The code at place 0 stands for the body, and at each place for
/// the statements left there. It takes time and memory linear in the body.
pub fn compile(alloc: Global, body: &[Stmt]) -> Result<Code, OutOfMemory>
    requires few { block_count body.now ≤ statement_limit }
    ensures denotes { IfOk result (λ code. IsCodeOf body.now code) }
    ensures flat { IfOk result (λ code. code ≡ body_code body.now) }
{
    let mut code = Vec::new(alloc);
    emit_block(alloc, &mut code, body)?;
    put(&mut code, Instruction::End)?;
    Ok(Code::from_vec(code))
}
