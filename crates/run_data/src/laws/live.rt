//! Laws about what is live in a simulation: what has not ended.

ghost use Rattle.run_data.specs.laws.EndedByCount.{EndedByCount, LiveHasMakers};
ghost use Rattle.run_data.specs.laws.LiveParts.{LiveByPaths, SameHasEnded};
ghost use Rattle.run_data.specs.laws.PrunedStates.{PrunedStep};

/// A simulation may leave out all tasks that have ended, after each step: it goes on as with them. What has ended is told by
/// the live part of a table, and by the number of live children.
pub fn what_has_ended_may_be_left_out()
    ensures step { PrunedStep }
    ensures ended { SameHasEnded }
    ensures count { EndedByCount }
    ensures makers { LiveHasMakers }
    ensures paths { LiveByPaths }
{}
