//! What a merge comes to in two plain cases. These functions do nothing: what they promise is a law of the merge.

ghost use Rattle.std.specs.Prelude.{◌≡◌, ◌<◌, ◌^◌, [], Ok};
ghost use Rattle.aerie_base.specs.declared.plans.Plan.{Plan as Shown};
ghost use Rattle.plan_merge.specs.MergedPlans.{MergesAreOfTheModel};
ghost use Rattle.plan_merge.specs.Merging.{merge_of};
ghost use Rattle.plan_merge.specs.Plans.{AreMergeable};
ghost use Rattle.plan_merge.specs.SourceOnly.{GivesTheSource};

/// Merged from a source that changed nothing since the base, the target stays as it is, and nothing is added.
pub fn a_source_that_changed_nothing()
    ensures { (base target : Shown) → AreMergeable base base target → target.next_id < 2 ^ 32 →
        merge_of base base target ≡ Ok (record { plan = target; added = [] }) }
{}

/// Merged into a target that changed nothing since the base, the source's directives are those of the merged plan, the
/// new ones with new ids.
pub fn a_target_that_changed_nothing()
    ensures { (base source : Shown) → AreMergeable base source base →
        GivesTheSource base source base (merge_of base source base) }
{}

/// What is merged of plans of one model and one duration is a plan of that model, like the target. That its ids and anchors are in
/// order is a clause of `merge`.
pub fn merges_are_of_the_model()
    ensures { MergesAreOfTheModel }
{}
