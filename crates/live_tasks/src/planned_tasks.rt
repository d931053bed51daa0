//! The tasks of a plan before it begins.

ghost use Rattle.std.specs.Prelude.{◌≡◌, ◌<◌, ◌++◌, ℕ, List, false, None, length, IfOk, OnOk};
ghost use Rattle.aerie_base.specs.Paths.{root, daemon_root};
ghost use Rattle.aerie_base.specs.plans.OfModel.{IsPlanOf, Rise};
ghost use Rattle.run_data.specs.Fresh.{start};
ghost use Rattle.run_data.specs.Tasks.{with_directives, with_daemons};
ghost use Rattle.run_data.specs.laws.LiveParts.{live};
ghost use Rattle.live_tasks.specs.Followers.{AreById};
ghost use Rattle.live_tasks.specs.ListedSlots.{ListsAll, ListsExactly, KeepsWaits};
ghost use Rattle.live_tasks.specs.PlannedTasks.{planned_task, directive_task, daemon_task, slot_of_root, IsPlannedBy, follower_of, HasNoTask, Plans, PlansAll};
ghost use Rattle.live_tasks.specs.Slots.{IsRoot};
ghost use Rattle.live_tasks.specs.InStep.{table_in, IsInStep};
ghost use Rattle.live_tasks.specs.Waking.{AreKeptFor};

use crate::beginnings::{activity_state, daemon_state};
use crate::followers::Follower;
use crate::phases::{LivePhase, LiveTask, micros};
use crate::slots::Slot;
use crate::tasks::LiveTasks;
use aerie_base::{Anchor, Daemon, Directive, Model, OutOfMemory, Path, Plan, Shared, Time};
use run_data::TaskState;
use run_data::laws::reached_states_are_quiet;
use std::alloc::Global;

/// A directive before it begins, which it does from this state.
fn planned(directive: &Directive, state: Shared<TaskState>) -> LiveTask
    ensures { result ≡ planned_task directive.now.anchor directive.now.start state }
{
    let phase = match &directive.anchor {
        Some(anchor) => LivePhase::Anchored {
            to: anchor.to,
            edge: anchor.edge,
            start: directive.start,
            state,
        },
        None => LivePhase::Delayed {
            until: micros(directive.start),
            state,
        },
    };
    LiveTask::new(phase, 0, false)
}

/// The slot of a directive or daemon.
fn root_slot(alloc: Global, path: Path, task: LiveTask) -> Result<Slot, OutOfMemory>
    ensures { IfOk result (λ slot. slot ≡ slot_of_root path task) }
{
    let path = Shared::new(alloc, path)?;
    Ok(Slot {
        path,
        task,
        parent: None,
        own: 0,
        live_below: 0,
    })
}

/// The slot of a directive before it begins.
pub fn directive_slot(
    alloc: Global,
    model: &Model,
    directive: &Directive,
) -> Result<Slot, OutOfMemory>
    ensures { IfOk result (λ slot.
        slot ≡ slot_of_root (root directive.now.id) (directive_task model.now directive.now)) }
{
    let state = activity_state(alloc, model, directive.kind, directive.arguments.as_slice())?;
    let path = Path::of_directive(alloc, directive.id)?;
    root_slot(alloc, path, planned(directive, state))
}

/// With a task as a follower, if it has an anchor.
fn follow(
    followers: &mut Vec<Follower>,
    anchor: Option<Anchor>,
    number: usize,
) -> Result<(), OutOfMemory>
    ensures { OnOk result (followers.new.items ≡ followers.old.items ++ follower_of anchor number) }
{
    if let Some(anchor) = anchor {
        followers.push(Follower {
            to: anchor.to,
            number,
        })?;
    }
    Ok(())
}

impl LiveTasks {
    /// With the task of a directive or daemon, which follows the directive of an anchor, if it has one.
    fn plan(
        &mut self,
        alloc: Global,
        path: Path,
        task: LiveTask,
        anchor: Option<Anchor>,
    ) -> Result<(), OutOfMemory>
        requires path { IsRoot path }
        requires begun { task.begun ≡ false }
        requires phase { IsPlannedBy anchor task.phase }
        ensures planned { OnOk result (Plans path task self.old self.new) }
        ensures waits { OnOk result (KeepsWaits self.old.tables self.new.tables) }
    {
        let slot = root_slot(alloc, path, task)?;
        let number = self.tables.insert(slot)?;
        follow(&mut self.followers, anchor, number)?;
        Ok(())
    }

    /// With the task of a directive.
    fn plan_directive(
        &mut self,
        alloc: Global,
        model: &Model,
        directive: &Directive,
    ) -> Result<(), OutOfMemory>
        ensures planned { OnOk result (
            Plans (root directive.now.id) (directive_task model.now directive.now) self.old self.new) }
        ensures waits { OnOk result (KeepsWaits self.old.tables self.new.tables) }
    {
        let state = activity_state(alloc, model, directive.kind, directive.arguments.as_slice())?;
        let path = Path::of_directive(alloc, directive.id)?;
        self.plan(alloc, path, planned(directive, state), directive.anchor)?;
        Ok(())
    }

    /// With the task of a daemon.
    fn plan_daemon(
        &mut self,
        alloc: Global,
        number: u16,
        daemon: &Daemon,
    ) -> Result<(), OutOfMemory>
        ensures planned { OnOk result (
            Plans (daemon_root number) (daemon_task number daemon.now) self.old self.new) }
        ensures waits { OnOk result (KeepsWaits self.old.tables self.new.tables) }
    {
        let state = daemon_state(alloc, number, daemon)?;
        let path = Path::of_daemon(alloc, u32::from(number))?;
        let phase = LivePhase::Delayed { until: 0, state };
        self.plan(alloc, path, LiveTask::new(phase, 0, false), None)?;
        Ok(())
    }

    /// With the tasks of daemons.
    fn plan_daemons(&mut self, alloc: Global, daemons: &[Daemon]) -> Result<(), OutOfMemory>
        requires few { length daemons.now < 65536 }
        requires none { (path : List ℕ) → HasNoTask self.old path }
        ensures planned { OnOk result (PlansAll (with_daemons 0 daemons.now) self.old self.new) }
        ensures none { OnOk result ((id : ℕ) → HasNoTask self.new (root id)) }
        ensures waits { OnOk result (KeepsWaits self.old.tables self.new.tables) }
    {
        let mut number: u16 = 0;
        for daemon in daemons {
            self.plan_daemon(alloc, number, daemon)?;
            number += 1;
        }
        Ok(())
    }

    /// With the tasks of directives, whose ids rise.
    fn plan_directives(
        &mut self,
        alloc: Global,
        model: &Model,
        directives: &[Directive],
    ) -> Result<(), OutOfMemory>
        requires ids { Rise directives.now }
        requires none { (id : ℕ) → HasNoTask self.old (root id) }
        ensures planned { OnOk result (
            PlansAll (with_directives model.now directives.now) self.old self.new) }
        ensures waits { OnOk result (KeepsWaits self.old.tables self.new.tables) }
    {
        for directive in directives {
            self.plan_directive(alloc, model, directive)?;
        }
        Ok(())
    }

    /// Once all are planned, the followers are put in order of id.
    fn settle_plan(&mut self) -> Result<(), OutOfMemory>
        ensures planned { OnOk result (PlansAll (λ table. table) self.old self.new) }
        ensures by_id { OnOk result (AreById self.new.followers.items) }
        ensures listed { OnOk result (ListsAll self.old.tables → ListsExactly self.new.tables) }
        ensures waits { OnOk result (KeepsWaits self.old.tables self.new.tables) }
    {
        self.tables.relist();
        self.followers.sort_by_key(|follower| follower.to)?;
        Ok(())
    }

    /// The tasks of a plan at its start: the live part of the table there. It takes a time in the order of the number of directives and
    /// its logarithm.
    pub fn begin(alloc: Global, model: &Model, plan: &Plan) -> Result<LiveTasks, OutOfMemory>
        requires { IsPlanOf model.now plan.now }
        ensures table { IfOk result (λ tasks. table_in tasks ≡ live (start model.now plan.now).table) }
        ensures in_step { IfOk result IsInStep }
        ensures kept { IfOk result (AreKeptFor 0 (length model.now.cells)) }
    {
        reached_states_are_quiet();
        let mut tasks = LiveTasks::new(alloc, model.cells().len())?;
        tasks.plan_daemons(alloc, model.daemons())?;
        tasks.plan_directives(alloc, model, plan.directives.as_slice())?;
        tasks.settle_plan()?;
        tasks.rest(Time::zero())?;
        Ok(tasks)
    }
}
