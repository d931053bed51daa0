//! The workspace with its conditions kept.

ghost use Rattle.std.specs.Prelude.{◌≡◌, ◌<◌, ◌^◌, IfOk, OnErr};
ghost use Rattle.commands.specs.SessionModels.{AreModels, IsPlanAmong};
ghost use Rattle.hangar_core.specs.Replies.{accepted_with as accepted_by};
ghost use Rattle.hangar_core.specs.ValidWorkspaces.{first_workspace, IsActionOn, IsStepped};

use crate::branches::Branch;
use crate::entries::Entry;
use crate::held_plans::HeldPlan;
use crate::last_revisions::LastRevisions;
use crate::replies::Reply;
use crate::workspaces::Workspace;
use aerie_base::{List, Model, Name, OutOfMemory, Plan, Shared};
use plan_edit::Mapping;
use std::alloc::Global;

/// The workspace of one thread: models, the mappings between them, and branches of plans. Contracts see it beside the number of
/// actions that it accepted; a Fetch is not counted.
#[derive(Drop)]
pub struct Hangar {
    workspace: Workspace,
    accepted: u64,
}

impl std::marker::Model for Hangar {
    ghost use Rattle.std.specs.Coded.{codes};
    ghost use Rattle.aerie_base.specs.contracts.expressions.Expr as expr;
    ghost use Rattle.aerie_base.specs.contracts.conditions.Cond as cond;
    ghost use Rattle.aerie_base.specs.contracts.statements.Stmt as stmt;
    ghost use Rattle.hangar_core.specs.ValidWorkspaces.{AreRevisionsWithin, CountedWorkspace, IsHangar};

    ghost Value = { CountedWorkspace };

    ghost coded = { Prim.hlevel (codes, expr.the_row.coded, cond.the_row.coded, stmt.the_row.coded) };

    ghost view = { λ hangar. record { workspace = hangar.workspace; accepted = hangar.accepted } };

    ghost invariant = { λ hangar. IsHangar hangar.accepted hangar.workspace };
}

impl Hangar {
    /// The workspace of a session: its models in order, the mappings between them, and one branch with a plan, at revision 0.
    pub fn new(
        alloc: Global,
        models: List<Shared<Model>>,
        mappings: List<Mapping>,
        branch: Name,
        plan: Plan,
    ) -> Result<Hangar, OutOfMemory>
        requires models { AreModels models mappings }
        requires plan { IsPlanAmong models plan }
        ensures opened { IfOk result (λ hangar. hangar ≡ record {
          workspace = first_workspace models mappings branch plan;
          accepted = 0;
        }) }
    {
        let duration = plan.duration;
        let plan = HeldPlan::of(alloc, plan)?;
        let mut branches = List::with_capacity(alloc, 1)?;
        branches.push(Branch {
            name: branch,
            revision: 0,
            plan,
            kept: None,
        })?;
        Ok(Hangar {
            workspace: Workspace {
                models,
                mappings,
                duration,
                branches,
                dropped: LastRevisions::new(alloc),
            },
            accepted: 0,
        })
    }

    /// One step of the workspace: what an entry's action answers. A refusal is a reply as well. Want of memory is the `Err`
    /// alone, and the workspace is then as it was. A lookup of a branch scans them all. An edit changes the plan in place where
    /// nobody else holds it, and else copies it once; no other action copies a plan.
    pub fn step(&mut self, alloc: Global, entry: Entry) -> Result<Reply, OutOfMemory>
        requires few { self.old.accepted < 2 ^ 63 }
        requires action { IsActionOn self.old.workspace entry.action }
        ensures stepped { IfOk result (IsStepped self.old self.new entry.action) }
        ensures unchanged { OnErr result (self.new ≡ self.old) }
    {
        let reply = self.workspace.step(alloc, entry.action)?;
        self.accepted += accepted_with(&reply);
        Ok(reply)
    }
}

/// How many actions were accepted with a reply.
fn accepted_with(reply: &Reply) -> u64
    ensures { result ≡ accepted_by reply.now }
{
    match reply {
        Reply::Opened { .. }
        | Reply::Dropped
        | Reply::Added { .. }
        | Reply::Edited { .. }
        | Reply::Loaded { .. }
        | Reply::Attached
        | Reply::Placed { .. } => 1,
        _ => 0,
    }
}
