//! Laws, each the promise of a function without a body.

ghost use Rattle.hangar_core.specs.laws.FittingJournals.{FrontsAreReplayed, SerialFits, TriplesTellAll};
ghost use Rattle.hangar_core.specs.laws.Histories.{RevisionsNamePlans, RevisionsNeverFall};
ghost use Rattle.hangar_core.specs.laws.Isolation.{BranchesAreIsolated, OtherBranchesStay};

/// Along any list of actions the revisions of a name never fall, also where it is dropped and begun again, and a name and a
/// revision name at most one plan.
pub fn revisions_name_plans()
    ensures rise { RevisionsNeverFall }
    ensures plans { RevisionsNamePlans }
{}

/// An action on one branch alone gets the same reply and leaves the same branch in two workspaces in which that branch is the
/// same, and it leaves every other branch as it was.
pub fn branches_are_isolated()
    ensures alike { BranchesAreIsolated }
    ensures others { OtherBranchesStay }
{}

/// Of two journals that fit the same commands, with the same triples of client, command and part in the same order, each
/// entry and each reply is the same.
pub fn triples_tell_all()
    ensures { TriplesTellAll }
{}

/// The journal of clients in rounds, each command whole, fits their commands.
pub fn serial_journals_fit()
    ensures { SerialFits }
{}

/// A journal that is cut behind any of its entries is still a replay.
pub fn fronts_are_replayed()
    ensures { FrontsAreReplayed }
{}
