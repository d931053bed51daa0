//! One part of a command.

ghost use Rattle.std.specs.Prelude.{◌≡◌, IfOk};
ghost use Rattle.hangar_core.specs.ValidWorkspaces.{IsActionOn};
ghost use Rattle.client_work.specs.Working.{entry_of, HasOneMore};

use crate::workplace::Assignment;
use aerie_base::OutOfMemory;
use aerie_edge::Gate;
use hangar_core::{Action, Entry, Reply};
use hangar_lock::Pass;
use std::alloc::Global;
use std::sync::Wait;

/// Enters the action as a part of the command, and answers the reply.
pub(crate) fn act<R: Wait, G: Gate>(
    alloc: Global,
    assignment: &Assignment<R, G>,
    part: u32,
    action: Action,
    pass: &mut Pass,
) -> Result<Reply, OutOfMemory>
    requires own { pass.old.lock ≡ assignment.now.workplace.now.lock.now }
    requires action { IsActionOn assignment.now.workplace.now.lock.now.opened.workspace action }
    ensures { IfOk result (HasOneMore pass.old pass.new (entry_of assignment.now.whose part action)) }
{
    let whose = assignment.whose;
    let entry = Entry {
        client: whose.client,
        command: whose.command,
        part,
        action,
    };
    let workplace = assignment.workplace;
    let receipt = workplace.lock.act(alloc, workplace.rt, pass, entry)?;
    Ok(receipt.reply)
}
