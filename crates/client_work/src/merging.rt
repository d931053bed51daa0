//! Merges of branches.

ghost use Rattle.std.specs.Prelude.{◌≡◌, [], ◌∷◌, IfOk, true};
ghost use Rattle.plan_merge.specs.Merging.{merge_of};
ghost use Rattle.plan_merge.specs.Plans.{AreMergeable, IsInOrder};
ghost use Rattle.hangar_core.specs.declared.actions.Action.TheVariants as action;
ghost use Rattle.client_work.specs.Fetching.{reply_with};
ghost use Rattle.client_work.specs.Meanings.{are_of_one_model};
ghost use Rattle.client_work.specs.MergesCarriedOn.{AreFetchedAt, IsMergeCarriedOn, merge_begun, replies_with};
ghost use Rattle.client_work.specs.Told.{merge_placed as placed_by};
ghost use Rattle.client_work.specs.Working.{entry_of, HasOneMore, IsAssignedTo, IsPlanAt, IsReplyAt};

use crate::acting::act;
use crate::fetching::{FetchedBranch, fetched};
use crate::workplace::Assignment;
use aerie_base::{List, Name, OutOfMemory, Plan};
use aerie_edge::Gate;
use hangar_core::{Action, Reply};
use hangar_lock::Pass;
use plan_merge::{MergeError, Merged, merge as merge_plans};
use report_text::Answer;
use std::alloc::Global;
use std::sync::Wait;

/// A merge that is carried out, with the branches that it names.
#[derive(Drop)]
pub(crate) struct MergeAssignment<'m, 'w, 'a, R: Wait, G: Gate> {
    pub(crate) assignment: &'m Assignment<'w, 'a, R, G>,
    pub(crate) target: &'m Name,
    pub(crate) source: &'m Name,
    pub(crate) base: &'m Name,
}

/// The target and the source of a merge as they were fetched.
#[derive(Drop)]
pub(crate) struct FetchedPair<'f> {
    pub(crate) target: &'f FetchedBranch,
    pub(crate) source: &'f FetchedBranch,
}

/// All branches of a merge as they were fetched.
#[derive(Drop)]
pub(crate) struct FetchedBranches<'f> {
    pub(crate) target: &'f FetchedBranch,
    pub(crate) source: &'f FetchedBranch,
    pub(crate) base: &'f FetchedBranch,
}

/// Fetches a branch.
fn fetch<R: Wait, G: Gate>(
    alloc: Global,
    assignment: &Assignment<R, G>,
    part: u32,
    branch: &Name,
    pass: &mut Pass,
) -> Result<Reply, OutOfMemory>
    requires own { pass.old.lock ≡ assignment.now.workplace.now.lock.now }
    ensures { IfOk result (HasOneMore pass.old pass.new
        (entry_of assignment.now.whose part (action.Fetch branch.now))) }
{
    let branch = branch.copy(alloc)?;
    let reply = act(alloc, assignment, part, Action::Fetch { branch }, pass)?;
    Ok(reply)
}

/// Whether three plans are of one model.
fn are_alike(base: &Plan, source: &Plan, target: &Plan) -> bool
    ensures { result ≡ are_of_one_model base.now source.now target.now }
{
    source.model == base.model && target.model == base.model
}

/// The merge of three plans, or why there is none.
fn merged_or_refused(
    alloc: Global,
    base: &Plan,
    source: &Plan,
    target: &Plan,
) -> Result<Result<Merged, MergeError>, OutOfMemory>
    requires order { AreMergeable base.now source.now target.now }
    ensures exact { IfOk result (λ made. made ≡ merge_of base.now source.now target.now) }
    ensures order { IfOk result (λ made. IfOk made (λ merged. IsInOrder merged.plan)) }
{
    match merge_plans(alloc, base, source, target) {
        Ok(merged) => Ok(Ok(merged)),
        Err(MergeError::OutOfMemory) => Err(OutOfMemory),
        Err(error) => Ok(Err(error)),
    }
}

/// What is told of a merge that added these directives, by the reply to the Place.
fn merge_told(added: List<u32>, reply: Reply) -> Answer
    ensures { result ≡ placed_by added reply }
{
    match reply {
        Reply::Placed { revision } => Answer::Merge { revision, added },
        refusal => Answer::Reply(refusal),
    }
}

/// Places a merged plan where the target was fetched.
fn place_merged<R: Wait, G: Gate>(
    alloc: Global,
    merge: &MergeAssignment<R, G>,
    seen: u64,
    plan: Plan,
    pass: &mut Pass,
) -> Result<Reply, OutOfMemory>
    requires own { pass.old.lock ≡ merge.now.assignment.now.workplace.now.lock.now }
    requires plan { IsPlanAt merge.now.assignment.now.workplace.now.lock.now plan }
    ensures { IfOk result (HasOneMore pass.old pass.new
        (entry_of merge.now.assignment.now.whose 3 (action.Place merge.now.target.now seen plan))) }
{
    let branch = merge.target.copy(alloc)?;
    let placing = Action::Place { branch, seen, plan };
    let reply = act(alloc, merge.assignment, 3, placing, pass)?;
    Ok(reply)
}

/// What becomes of a merge of three fetched branches of one model.
fn merge_alike<R: Wait, G: Gate>(
    alloc: Global,
    merge: &MergeAssignment<R, G>,
    all: &FetchedBranches,
    pass: &mut Pass,
) -> Result<Answer, OutOfMemory>
    requires workplace { IsAssignedTo merge.now.assignment.now pass.old }
    requires fetched { AreFetchedAt merge.now.assignment.now.workplace.now.lock.now all.now }
    requires alike { are_of_one_model all.now.base.now.plan all.now.source.now.plan all.now.target.now.plan ≡ true }
    ensures { IfOk result (IsMergeCarriedOn (merge_begun merge.now (replies_with all.now))
        pass.old pass.new) }
{
    let base = all.base;
    let source = all.source;
    let target = all.target;
    let made = merged_or_refused(alloc, base.plan.get(), source.plan.get(), target.plan.get())?;
    match made {
        Ok(merged) => {
            let reply = place_merged(alloc, merge, target.revision, merged.plan, pass)?;
            Ok(merge_told(merged.added, reply))
        }
        Err(error) => Ok(Answer::MergeRefused(error)),
    }
}

/// What becomes of a merge of three fetched branches.
fn merge_fetched<R: Wait, G: Gate>(
    alloc: Global,
    merge: &MergeAssignment<R, G>,
    all: &FetchedBranches,
    pass: &mut Pass,
) -> Result<Answer, OutOfMemory>
    requires workplace { IsAssignedTo merge.now.assignment.now pass.old }
    requires fetched { AreFetchedAt merge.now.assignment.now.workplace.now.lock.now all.now }
    ensures { IfOk result (IsMergeCarriedOn (merge_begun merge.now (replies_with all.now))
        pass.old pass.new) }
{
    let base = all.base;
    let source = all.source;
    let target = all.target;
    if are_alike(base.plan.get(), source.plan.get(), target.plan.get()) {
        return merge_alike(alloc, merge, all, pass);
    }
    Ok(Answer::OtherModel)
}

/// The same by the reply to the Fetch of the base.
fn base_fetched<R: Wait, G: Gate>(
    alloc: Global,
    merge: &MergeAssignment<R, G>,
    pair: &FetchedPair,
    third: Reply,
    pass: &mut Pass,
) -> Result<Answer, OutOfMemory>
    requires workplace { IsAssignedTo merge.now.assignment.now pass.old }
    requires target { IsPlanAt merge.now.assignment.now.workplace.now.lock.now pair.now.target.now.plan }
    requires source { IsPlanAt merge.now.assignment.now.workplace.now.lock.now pair.now.source.now.plan }
    requires third { IsReplyAt merge.now.assignment.now.workplace.now.lock.now third }
    ensures { IfOk result (IsMergeCarriedOn (merge_begun merge.now
        (reply_with pair.now.target.now ∷ reply_with pair.now.source.now ∷ third ∷ [])) pass.old pass.new) }
{
    match fetched(third) {
        Ok(base) => {
            let all = FetchedBranches {
                target: pair.target,
                source: pair.source,
                base: &base,
            };
            merge_fetched(alloc, merge, &all, pass)
        }
        Err(refusal) => Ok(Answer::Reply(refusal)),
    }
}

/// The same by the reply to the Fetch of the source.
fn source_fetched<R: Wait, G: Gate>(
    alloc: Global,
    merge: &MergeAssignment<R, G>,
    target: &FetchedBranch,
    second: Reply,
    pass: &mut Pass,
) -> Result<Answer, OutOfMemory>
    requires workplace { IsAssignedTo merge.now.assignment.now pass.old }
    requires target { IsPlanAt merge.now.assignment.now.workplace.now.lock.now target.now.plan }
    requires second { IsReplyAt merge.now.assignment.now.workplace.now.lock.now second }
    ensures { IfOk result (IsMergeCarriedOn (merge_begun merge.now (reply_with target.now ∷ second ∷ []))
        pass.old pass.new) }
{
    match fetched(second) {
        Ok(source) => {
            let pair = FetchedPair {
                target,
                source: &source,
            };
            let third = fetch(alloc, merge.assignment, 2, merge.base, pass)?;
            let answer = base_fetched(alloc, merge, &pair, third, pass)?;
            Ok(answer)
        }
        Err(refusal) => Ok(Answer::Reply(refusal)),
    }
}

/// The same by the reply to the Fetch of the target.
pub(crate) fn merged<R: Wait, G: Gate>(
    alloc: Global,
    merge: &MergeAssignment<R, G>,
    first: Reply,
    pass: &mut Pass,
) -> Result<Answer, OutOfMemory>
    requires workplace { IsAssignedTo merge.now.assignment.now pass.old }
    requires first { IsReplyAt merge.now.assignment.now.workplace.now.lock.now first }
    ensures { IfOk result (IsMergeCarriedOn (merge_begun merge.now (first ∷ [])) pass.old pass.new) }
{
    match fetched(first) {
        Ok(target) => {
            let second = fetch(alloc, merge.assignment, 1, merge.source, pass)?;
            let answer = source_fetched(alloc, merge, &target, second, pass)?;
            Ok(answer)
        }
        Err(refusal) => Ok(Answer::Reply(refusal)),
    }
}
