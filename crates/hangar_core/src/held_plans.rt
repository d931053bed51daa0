//! A plan that is edited in place, and shared with those who fetch it.

ghost use Rattle.std.specs.Prelude.{◌≡◌, Ok, IfOk, IfErr, OnOk, OnErr};
ghost use Rattle.aerie_base.specs.plans.OfModel.{IsPlanOf};
ghost use Rattle.plan_edit.specs.Mappings.{IsMappingOf};
ghost use Rattle.plan_edit.specs.Migrating.{migrate_of, IsMigrateRefusal};
ghost use Rattle.hangar_core.specs.Edits.{IsEdited};

use crate::edits::perform;
use crate::replies::Reply;
use aerie_base::{Model, OutOfMemory, Plan, Shared};
use commands::Edit;
use plan_edit::{EditError, Mapping, MigrateError, migrate};
use std::alloc::Global;

/// The plan of a branch. It is shared with those who fetch it, and edited in place while nobody else holds it; it is copied only
/// at an edit while somebody else does. Contracts see the plan.
#[derive(Drop)]
pub struct HeldPlan {
    plan: Shared<Plan>,
}

impl std::marker::Model for HeldPlan {
    ghost use Rattle.aerie_base.specs.declared.plans.Plan.{Plan as Shown};

    ghost Value = { Shown };

    ghost view = { λ held. held.plan };
}

impl HeldPlan {
    /// A plan that nobody else holds.
    pub fn of(alloc: Global, plan: Plan) -> Result<HeldPlan, OutOfMemory>
        ensures { IfOk result (λ held. held ≡ plan) }
    {
        let plan = Shared::new(alloc, plan)?;
        Ok(HeldPlan { plan })
    }

    /// A plan that others may hold too.
    pub fn of_shared(plan: Shared<Plan>) -> HeldPlan
        ensures { result ≡ plan }
    {
        HeldPlan { plan }
    }

    /// The plan.
    pub fn get(&self) -> &Plan
        ensures { result.now ≡ self.now }
    {
        self.plan.get()
    }

    /// One more owner of the plan, which is not copied.
    pub fn share(&self) -> Result<Shared<Plan>, OutOfMemory>
        ensures { IfOk result (λ plan. plan ≡ self.now) }
    {
        self.plan.share()
    }

    /// Edits the plan, and answers what tells of it with a revision. A copy is kept even where the edit is refused, so that the next
    /// one takes none.
    pub fn edit(
        &mut self,
        alloc: Global,
        model: &Model,
        edit: &Edit,
        revision: u64,
    ) -> Result<Reply, EditError>
        requires plan { IsPlanOf model.now self.old }
        ensures { IsEdited edit.now model.now revision self.old self.new result }
    {
        if let Some(own) = self.plan.get_mut() {
            return perform(alloc, model, own, edit, revision);
        }
        let mut own = self.plan.get().copy(alloc)?;
        let answer = perform(alloc, model, &mut own, edit, revision);
        self.plan = Shared::new(alloc, own)?;
        answer
    }

    /// Takes the plan to another model, likewise.
    pub fn migrate(
        &mut self,
        alloc: Global,
        old: &Model,
        new: &Model,
        mapping: &Mapping,
    ) -> Result<(), MigrateError>
        requires mapping { IsMappingOf old.now new.now mapping.now }
        requires plan { IsPlanOf old.now self.old }
        ensures migrated { OnOk result (migrate_of new.now mapping.now self.old ≡ Ok self.new) }
        ensures refused { IfErr result (IsMigrateRefusal (migrate_of new.now mapping.now self.old)) }
        ensures unchanged { OnErr result (self.new ≡ self.old) }
        ensures plan { OnOk result (IsPlanOf new.now self.new) }
    {
        if let Some(own) = self.plan.get_mut() {
            return migrate(alloc, old, new, mapping, own);
        }
        let mut own = self.plan.get().copy(alloc)?;
        let answer = migrate(alloc, old, new, mapping, &mut own);
        self.plan = Shared::new(alloc, own)?;
        answer
    }
}
