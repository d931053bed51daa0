//! Whose entries they are.

ghost use Rattle.std.specs.Prelude.{◌≡◌};

use crate::actions::Action;
use crate::replies::Reply;
use std::snapshot::Snapshot;

/// Whose part of which command an entry of a journal is. Contracts see the entry with its reply; when the program runs, only its
/// client, command and part are there, so that a journal keeps no plan and no run.
#[derive(Drop)]
pub struct Triple {
    pub(crate) client: u32,
    pub(crate) command: u32,
    pub(crate) part: u32,
    pub(crate) action: Snapshot<Action>,
    pub(crate) reply: Snapshot<Reply>,
}

impl std::marker::Model for Triple {
    ghost use Rattle.std.specs.Coded.{codes};
    ghost use Rattle.aerie_base.specs.contracts.expressions.Expr as expr;
    ghost use Rattle.aerie_base.specs.contracts.conditions.Cond as cond;
    ghost use Rattle.aerie_base.specs.contracts.statements.Stmt as stmt;
    ghost use Rattle.hangar_core.specs.declared.entries.Entry.{Entry};
    ghost use Rattle.hangar_core.specs.declared.replies.Reply.{Reply as Told};
    ghost use Rattle.hangar_core.specs.Journals.{noted_entry};

    ghost Value = { Entry × Told };

    ghost coded = { Prim.hlevel (codes, expr.the_row.coded, cond.the_row.coded, stmt.the_row.coded) };

    ghost view = { λ triple. noted_entry triple.client triple.command triple.part triple.action.value triple.reply.value };
}

impl Triple {
    /// The client, from 0.
    pub fn client(&self) -> u32
        ensures { result ≡ self.now.0.client }
    {
        self.client
    }

    /// Which of its commands, from 0.
    pub fn command(&self) -> u32
        ensures { result ≡ self.now.0.command }
    {
        self.command
    }

    /// Which part of the command, from 0.
    pub fn part(&self) -> u32
        ensures { result ≡ self.now.0.part }
    {
        self.part
    }
}
