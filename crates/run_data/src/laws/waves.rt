//! Laws about waves of steps and the bound.

ghost use Rattle.run_data.specs.laws.WaveFuel.{SpentIsLimit, WaveTellsFrames};

/// A wave by what is left of the bound tells the frames of its jobs as steps under the bound give them, or that the batch
/// stops by the limit.
pub fn waves_go_by_what_is_left()
    ensures frames { WaveTellsFrames }
    ensures limit { SpentIsLimit }
{}
