//! Laws, each the promise of a function without a body.

ghost use Rattle.hangar_lock.specs.laws.ClientsWork.{CommandsBegin, CommandsEnd, CommandsGoOn, CommandsHaveFewParts, WorkBegins, WorkEnds, WorkGoesOn};
ghost use Rattle.hangar_lock.specs.laws.JoinedPasses.{JoinedPassesAreWhole, JoinedPassesFit, JoinedPassesHaveAll, PassesHaveTheirEntries};

/// A command is done with a pass entry by entry, each the next action by the replies so far, until there is none; there are at
/// most four.
pub fn commands_are_done()
    ensures begin { CommandsBegin }
    ensures go_on { CommandsGoOn }
    ensures few { CommandsHaveFewParts }
    ensures end { CommandsEnd }
{}

/// The work of a client is done with a pass command by command.
pub fn work_is_done()
    ensures begin { WorkBegins }
    ensures go_on { WorkGoesOn }
    ensures end { WorkEnds }
{}

/// The journal of a lock fits the commands of all clients, where each client's were done with a pass of its own and all passes
/// were joined: whatever the order in which they took turns.
pub fn joined_passes_fit()
    ensures { JoinedPassesFit }
{}

/// Where each client's commands were done with a pass of its own and all passes were joined, the entries of a client's pass are
/// those of the journal that are the client's.
pub fn passes_have_their_entries()
    ensures { PassesHaveTheirEntries }
{}

/// A first pass into which all passes are joined that were split from it stands for all numbers, and has what was done with all.
pub fn joined_passes_are_whole()
    ensures whole { JoinedPassesAreWhole }
    ensures all { JoinedPassesHaveAll }
{}
