//! Plans that are placed: the second of two that fetched the same revision comes too late.

ghost use Rattle.std.specs.Prelude.{◌≡◌, ◌≤◌, ◌<◌, ◌+◌, IfSome};
ghost use Rattle.hangar_core.specs.ValidWorkspaces.{IsActionOn, IsOfSameSession, IsPlanIn, IsStepped};

use crate::opening::{hangar, named};
use aerie_base::Plan;
use hangar_core::{Action, Entry, Hangar, Reply};
use plan_edit::copy_plan;
use std::alloc::Global;
use std::process::Abort;

/// A step of a client's action.
#[tactic(auto, using(crate::proofs::FewAccepted::few_after))]
fn stepped(alloc: Global, hangar: &mut Hangar, client: u32, action: Action) -> Option<Reply>
    requires few { hangar.old.accepted < 1000 }
    requires action { IsActionOn hangar.old.workspace action }
    ensures few { hangar.new.accepted ≤ hangar.old.accepted + 1 }
    ensures stepped { IfSome result (IsStepped hangar.old hangar.new action) }
{
    let entry = Entry {
        client,
        command: 0,
        part: 0,
        action,
    };
    match hangar.step(alloc, entry) {
        Ok(reply) => Some(reply),
        Err(_) => None,
    }
}

/// The plan of the branch `main` as a client reads it, with the revision.
#[tactic(auto, using(crate::proofs::Fetched::fetch_changes_nothing, crate::proofs::Fetched::fetched_plan_is_in))]
fn fetched(alloc: Global, hangar: &mut Hangar, client: u32) -> Option<(u64, Plan)>
    requires few { hangar.old.accepted < 1000 }
    ensures same { IfSome result (λ found. hangar.new ≡ hangar.old) }
    ensures plan { IfSome result (λ found. IsPlanIn hangar.old.workspace.models hangar.old.workspace.duration found.1) }
{
    let branch = named(alloc, "main")?;
    let reply = stepped(alloc, hangar, client, Action::Fetch { branch })?;
    match reply {
        Reply::Fetched { revision, plan, .. } => {
            let plan = copy_plan(alloc, plan.get()).ok()?;
            Some((revision, plan))
        }
        _ => None,
    }
}

/// What is answered of a plan that a client places on the branch `main`, where it saw a revision.
fn placed(alloc: Global, hangar: &mut Hangar, client: u32, seen: u64, plan: Plan) -> Option<Reply>
    requires few { hangar.old.accepted < 1000 }
    requires plan { IsPlanIn hangar.old.workspace.models hangar.old.workspace.duration plan }
    ensures few { hangar.new.accepted ≤ hangar.old.accepted + 1 }
    ensures session { IfSome result (λ told. IsOfSameSession hangar.old.workspace hangar.new.workspace) }
{
    let branch = named(alloc, "main")?;
    let action = Action::Place { branch, seen, plan };
    let reply = stepped(alloc, hangar, client, action)?;
    Some(reply)
}

#[test]
#[tactic(auto, using(crate::proofs::Fetched::plan_stays_in))]
fn the_second_of_two_places_is_stale(rt: HostRuntime) {
    let alloc = rt.alloc();
    let mut hangar = hangar(alloc).expect(&rt, "memory");
    let (one_seen, one) = fetched(alloc, &mut hangar, 0).expect(&rt, "the branch");
    let (other_seen, other) = fetched(alloc, &mut hangar, 1).expect(&rt, "the branch");
    assert_eq!(&rt; (one_seen, other_seen), (0, 0));
    let first = placed(alloc, &mut hangar, 0, one_seen, one).expect(&rt, "memory");
    assert!(&rt; matches!(first, Reply::Placed { revision: 1 }));
    let second = placed(alloc, &mut hangar, 1, other_seen, other).expect(&rt, "memory");
    assert!(&rt; matches!(second, Reply::Stale { seen: 0, now: 1 }));
    // nothing was changed by what came too late
    let (seen, plan) = fetched(alloc, &mut hangar, 1).expect(&rt, "the branch");
    assert_eq!(&rt; (seen, plan.directives.len()), (1, 0));
}
