ghost use Rattle.std.specs.Prelude.{◌≡◌, ◌<◌, List as Items, length, slice_get, Some};
ghost use Rattle.aerie_base.specs.statements.Places.{left};
ghost use Rattle.aerie_base.specs.declared.statements.Stmt.{Stmt};
ghost use Rattle.body_code.specs.Denoting.{Denotes, JumpsEnd, IsCodeOf};

use crate::instructions::Instruction;
use aerie_base::List;
use std::marker::Model;

/// The flat code of a body. Contracts see its instructions, each at its place.
#[derive(Debug, Drop)]
pub struct Code {
    instructions: List<Instruction>,
}

impl Model for Code {
    ghost use Rattle.std.specs.Prelude.{List as Items};
    ghost use Rattle.std.specs.Coded.{codes};
    ghost use Rattle.aerie_base.specs.contracts.statements.Stmt as stmt;
    ghost use Rattle.aerie_base.specs.contracts.expressions.Expr as expr;
    ghost use Rattle.aerie_base.specs.contracts.conditions.Cond as cond;
    ghost use Rattle.body_code.specs.declared.instructions.Instruction.{Instruction};

    ghost Value = { Items Instruction };

    ghost coded = { Prim.hlevel (codes, stmt.the_row.coded, expr.the_row.coded, cond.the_row.coded) };

    ghost view = { λ code. code.instructions };
}

impl Code {
    /// The code of these instructions.
    pub(crate) fn from_vec(instructions: Vec<Instruction>) -> Code
        ensures { result ≡ instructions.items }
    {
        Code {
            instructions: List::from_vec(instructions),
        }
    }

    /// The instruction at a place of the code. It stands for the statements left there. It takes no memory and the same
    /// time at each place.
    pub fn next(&self, at: u32) -> &Instruction
        requires place { at < length self.now }
        ensures value { slice_get self.now at ≡ Some result.now }
        ensures denotes { (body : Items Stmt) → IsCodeOf body self.now → Denotes (left body) (length self.now) at result.now }
        ensures jumps_end { (body : Items Stmt) → IsCodeOf body self.now → JumpsEnd self.now at result.now }
    {
        &self.instructions.as_slice()[at as usize]
    }
}
