//! A model with the codes of its bodies.

ghost use Rattle.std.specs.Prelude.{◌≡◌, IfOk};
ghost use Rattle.body_code.specs.ModelCodes.{AreCodesOf};

use aerie_base::{List, Model, OutOfMemory, Shared};
use body_code::{Code, compile_all};
use std::alloc::Global;

/// A model whose bodies are compiled, once for all who simulate its plans. Contracts see the model.
#[derive(Drop)]
pub struct CompiledModel {
    model: Shared<Model>,
    codes: List<Code>,
}

impl std::marker::Model for CompiledModel {
    ghost use Rattle.std.specs.Coded.{codes as coders};
    ghost use Rattle.aerie_base.specs.contracts.expressions.Expr as expr;
    ghost use Rattle.aerie_base.specs.contracts.conditions.Cond as cond;
    ghost use Rattle.aerie_base.specs.contracts.statements.Stmt as stmt;
    ghost use Rattle.aerie_base.specs.declared.models.model.Parts.{Parts};
    ghost use Rattle.body_code.specs.ModelCodes.{AreCodesOf};

    ghost Value = { Parts };

    ghost coded = { Prim.hlevel (coders, expr.the_row.coded, cond.the_row.coded, stmt.the_row.coded) };

    ghost view = { λ compiled. compiled.model };

    ghost invariant = { λ compiled. AreCodesOf compiled.model compiled.codes };
}

impl CompiledModel {
    /// Compiles the bodies of the model, in time and memory linear in them.
    pub fn new(alloc: Global, model: Shared<Model>) -> Result<CompiledModel, OutOfMemory>
        ensures { IfOk result (λ compiled. compiled ≡ model) }
    {
        let codes = compile_all(alloc, model.get())?;
        Ok(CompiledModel { model, codes })
    }

    /// The model. It takes no memory.
    pub fn model(&self) -> &Shared<Model>
        ensures { result.now ≡ self.now }
    {
        &self.model
    }

    /// The codes of its bodies: those of its activity types and then those of its daemons.
    pub(crate) fn codes(&self) -> &[Code]
        ensures { AreCodesOf self.now result.now }
    {
        self.codes.as_slice()
    }
}
