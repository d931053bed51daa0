//! Laws about stored steps that fit: those of old runs may stand for the steps of a new one.

ghost use Rattle.run_data.specs.laws.FittingFrames.{CommittedFramesFit, FittingFramesAreMade, FittingWave, MadeFramesFit};
ghost use Rattle.run_data.specs.laws.InstantBeginnings.{InstantsBeginUntouched};

/// Frames of valid records that fit the jobs of a batch by path, state, view and bound, each child seeing what its maker sees
/// with the effects before it, are the frames of the batch, and each frame of a batch in which none has faulted fits so.
pub fn fitting_frames_are_the_batch()
    ensures wave { FittingWave }
    ensures made { FittingFramesAreMade }
    ensures fit { MadeFramesFit }
    ensures committed { CommittedFramesFit }
{}

/// Where an instant begins no cell is touched, and the cells are those to which the instants before bring them.
pub fn instants_begin_untouched()
    ensures { InstantsBeginUntouched }
{}
