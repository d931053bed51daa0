//! An edited plan's simulation goes on in the middle: live tasks are copied, and directives that differ are exchanged.

ghost use Rattle.std.specs.Prelude.{◌≡◌, ℕ, true, false, None, IfOk, OnOk};
ghost use Rattle.aerie_base.specs.Paths.{root};
ghost use Rattle.aerie_base.specs.plans.OfModel.{IsPlanOf, Rise};
ghost use Rattle.run_data.specs.Tasks.{with_directives};
ghost use Rattle.run_data.specs.laws.LateDifferences.{common_tasks};
ghost use Rattle.run_data.specs.laws.Orders.{EachOf};
ghost use Rattle.parting.specs.Exchanges.{differing_directives, exchanged};
ghost use Rattle.parting.specs.IdRanges.{is_id_between};
ghost use Rattle.live_tasks.specs.Exchanging.{HaveNotBegun, HasNoAnchor, MayExchange};
ghost use Rattle.live_tasks.specs.InStep.{table_in, IsInStep};
ghost use Rattle.live_tasks.specs.Joining.{AreUnderWay, IsJoinedBy, AreJoinedBy};
ghost use Rattle.live_tasks.specs.ListedSlots.{KeepsWaits};
ghost use Rattle.live_tasks.specs.PlannedTasks.{directive_task, HasNoTask};
ghost use Rattle.live_tasks.specs.Waking.{KeepsWakes};

use crate::planned_tasks::directive_slot;
use crate::slots::is_in;
use crate::tasks::LiveTasks;
use aerie_base::{Directive, Model, OutOfMemory, Plan};
use run_data::laws::{reached_states_are_of_the_model, reached_states_are_quiet};
use std::alloc::Global;

impl LiveTasks {
    /// The same tasks once more. It takes a time in the order of their number and its logarithm.
    pub fn copy(&self, alloc: Global) -> Result<LiveTasks, OutOfMemory>
        requires { IsInStep self.now }
        ensures table { IfOk result (λ tasks. table_in tasks ≡ table_in self.now) }
        ensures in_step { IfOk result IsInStep }
        ensures kept { IfOk result (KeepsWakes self.now) }
    {
        let tables = self.tables.copy(alloc)?;
        let followers = Vec::from_slice(alloc, self.followers.as_slice())?;
        Ok(LiveTasks::with_followers(alloc, tables, followers))
    }

    /// Without the tasks of the directives of a range of ids, none of which has begun.
    fn leave_out(&mut self, alloc: Global, first: u32, past: u64) -> Result<(), OutOfMemory>
        requires in_step { IsInStep self.old }
        requires unbegun { HaveNotBegun (is_id_between first past) (table_in self.old) }
        ensures left { OnOk result (
            AreUnderWay (common_tasks (is_id_between first past) (table_in self.old)) self.new) }
        ensures waits { OnOk result (KeepsWaits self.old.tables self.new.tables) }
    {
        self.tables.leave_out(alloc, first, past)?;
        Ok(())
    }

    /// With the task of a directive that follows none.
    fn join(
        &mut self,
        alloc: Global,
        model: &Model,
        directive: &Directive,
    ) -> Result<(), OutOfMemory>
        requires { directive.now.anchor ≡ None }
        ensures joined { OnOk result (
            IsJoinedBy (root directive.now.id) (directive_task model.now directive.now) self.old self.new) }
        ensures waits { OnOk result (KeepsWaits self.old.tables self.new.tables) }
    {
        let slot = directive_slot(alloc, model, directive)?;
        self.tables.insert(slot)?;
        Ok(())
    }

    /// The same, if its id is in a range.
    fn join_if(
        &mut self,
        alloc: Global,
        model: &Model,
        directive: &Directive,
        first: u32,
        past: u64,
    ) -> Result<(), OutOfMemory>
        requires { HasNoAnchor (is_id_between first past) directive.now }
        ensures joined { OnOk result (is_id_between first past directive.now.id ≡ true →
            IsJoinedBy (root directive.now.id) (directive_task model.now directive.now) self.old self.new) }
        ensures same { is_id_between first past directive.now.id ≡ false → self.new ≡ self.old }
        ensures waits { OnOk result (KeepsWaits self.old.tables self.new.tables) }
    {
        if !is_in(directive.id, first, past) {
            return Ok(());
        }
        self.join(alloc, model, directive)
    }

    /// With the tasks of those of some directives, whose ids rise, that are in a range.
    fn join_all(
        &mut self,
        alloc: Global,
        model: &Model,
        directives: &[Directive],
        first: u32,
        past: u64,
    ) -> Result<(), OutOfMemory>
        requires ids { Rise directives.now }
        requires alone { EachOf (HasNoAnchor (is_id_between first past)) directives.now }
        requires none { (id : ℕ) → is_id_between first past id ≡ true → HasNoTask self.old (root id) }
        ensures joined { OnOk result (
            AreJoinedBy (with_directives model.now (differing_directives (is_id_between first past) directives.now)) self.old self.new) }
        ensures waits { OnOk result (KeepsWaits self.old.tables self.new.tables) }
    {
        for directive in directives {
            self.join_if(alloc, model, directive, first, past)?;
        }
        Ok(())
    }

    /// In place of the directives of a range of ids (not below the first, and below `past`), none of which has begun, those of a plan
    /// whose ids are in the range, as they are planned. It takes a time in the order of the number of tasks and directives and its
    /// logarithm.
    pub fn exchange(
        &mut self,
        alloc: Global,
        model: &Model,
        plan: &Plan,
        first: u32,
        past: u64,
    ) -> Result<(), OutOfMemory>
        requires in_step { IsInStep self.old }
        requires plan { IsPlanOf model.now plan.now }
        requires unbegun { HaveNotBegun (is_id_between first past) (table_in self.old) }
        requires alone { EachOf (HasNoAnchor (is_id_between first past)) plan.now.directives }
        requires fits { MayExchange (is_id_between first past) model.now plan.now (table_in self.old) }
        ensures table { OnOk result (
            table_in self.new ≡ exchanged (is_id_between first past) model.now plan.now (table_in self.old)) }
        ensures in_step { OnOk result (IsInStep self.new) }
        ensures kept { OnOk result (KeepsWakes self.old self.new) }
    {
        reached_states_are_of_the_model();
        reached_states_are_quiet();
        // It says that the model is valid.
        let _ = model.cells();
        self.leave_out(alloc, first, past)?;
        self.join_all(alloc, model, plan.directives.as_slice(), first, past)?;
        self.tables.relist();
        Ok(())
    }
}
