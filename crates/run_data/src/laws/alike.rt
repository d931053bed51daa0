//! Laws about two simulations that are alike: from some state on, or until some time.

ghost use Rattle.run_data.specs.laws.AlikeSteps.{NextIsAlike};
ghost use Rattle.run_data.specs.laws.FollowedStates.{SettledIsFollowed};
ghost use Rattle.run_data.specs.laws.LateDifferences.{AffordsCost, AffordsNoLess, RunSideBySide, SameInstantsBefore};
ghost use Rattle.run_data.specs.laws.LateEdges.{EdgesStay, LateByAbsence, LateByTime};
ghost use Rattle.run_data.specs.laws.RestOfRuns.{RestIsTakenOver, RestIsTakenOverSettled, RestIsTakenOverWithin};
ghost use Rattle.run_data.specs.laws.RunCosts.{SpentIsCost};

/// From states that are alike a step gives states that are alike, as long as its cost fits what is left of the bound.
pub fn alike_states_go_on_alike()
    ensures { NextIsAlike }
{}

/// Where a new simulation is alike with one that an old run went through, the rest of that run is the rest of the new one: of
/// a completed run whose rest can be paid, of one that did not end by its bound where no less of the new bound is left, and
/// from a settled state of a completed run. What is spent is the cost of the frames so far. The new simulation comes to the beginning
/// of each later instant too, with the same cells and live tasks as the old one.
pub fn rest_of_old_run_is_taken_over()
    ensures completed { RestIsTakenOver }
    ensures within { RestIsTakenOverWithin }
    ensures settled { RestIsTakenOverSettled }
    ensures followed { SettledIsFollowed }
    ensures costs { SpentIsCost }
{}

/// Two plans that differ in directives none of which is due before a time run side by side until then, where the new bound
/// affords it: one that is no less does, and one that is no less than what the old run cost.
pub fn plans_that_differ_late_run_side_by_side()
    ensures states { RunSideBySide }
    ensures instants { SameInstantsBefore }
    ensures no_less { AffordsNoLess }
    ensures cost { AffordsCost }
{}

/// The edges of directives come once and for all, so a time or a state tells which come late.
pub fn edges_come_once()
    ensures stays { EdgesStay }
    ensures time { LateByTime }
    ensures absence { LateByAbsence }
{}
