//! Laws, each the promise of a function without a body.

ghost use Rattle.effect_cells.specs.Gathered.{BeginsReady, EntersWithNothing, ChildIsBeside, StaysReady};
ghost use Rattle.effect_cells.specs.KeptWakes.{PassesInParts, HoldsByCellsRead, WakesByCellsRead, HoldsWhereItWakesNow, StaysWhileTimePasses, StaysThroughBatches};

/// To let a time pass and then another is to let both pass.
pub fn time_passes_in_parts()
    ensures { PassesInParts }
{}

/// Whether a condition holds depends on the cells that it reads alone, and so does its wake time. It holds now exactly
/// where its wake time is now.
pub fn waiting_depends_on_cells_read()
    ensures holds { HoldsByCellsRead }
    ensures wakes { WakesByCellsRead }
    ensures now { HoldsWhereItWakesNow }
{}

/// A kept wake time stays right while only time passes, up to the wake time itself, and through a batch that has no effect
/// on a cell that the condition reads.
pub fn kept_wake_times_stay()
    ensures passing { StaysWhileTimePasses }
    ensures batches { StaysThroughBatches }
{}

/// How a tree is gathered from behind: as it is entered it has nothing, and a child that is gathered next is beside what is
/// gathered; then the next part may be gathered.
pub fn effects_are_gathered()
    ensures begins { BeginsReady }
    ensures enters { EntersWithNothing }
    ensures child { ChildIsBeside }
    ensures stays { StaysReady }
{}
