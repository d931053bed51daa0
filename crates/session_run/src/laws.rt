//! Laws, each the promise of a function.

ghost use Rattle.session_run.specs.laws.BranchesApart.{BranchesStandApart, ReportsTellOfPlans};
ghost use Rattle.session_run.specs.laws.FirstLines.{FirstLinesTellJournals, FirstLinesTellTexts};
ghost use Rattle.session_run.specs.laws.Journals.{InTurnFits};

use hangar_core::laws::{branches_are_isolated, serial_journals_fit, triples_tell_all};
use hangar_lock::laws::commands_are_done;

/// What clients do in turn is a journal that fits, and so is its text one of the session.
pub fn in_turn_fits()
    ensures { InTurnFits }
{
    serial_journals_fit();
}

/// Clients on branches of their own do not see each other: behind any beginning of a journal, what is done on a branch is answered
/// as if nothing were done on the others. And the report of a simulation is a function of the plan that was fetched.
pub fn branches_stand_apart()
    ensures apart { BranchesStandApart }
    ensures reports { ReportsTellOfPlans }
{
    branches_are_isolated();
}

/// Two texts of a session, along journals that fit it, that have the same first line are along the same journal. Where no
/// statements are counted they are the same text.
pub fn first_lines_tell_journals()
    ensures journals { FirstLinesTellJournals }
    ensures texts { FirstLinesTellTexts }
{
    triples_tell_all();
    commands_are_done();
}
