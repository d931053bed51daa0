//! Laws about batches.

ghost use Rattle.run_data.specs.laws.Generations.{AlikeByGenerations, SameByGenerations};
ghost use Rattle.run_data.specs.laws.MadeReads.{MadeDependsOnReads, ReadyInView};
ghost use Rattle.run_data.specs.laws.Orders.{MadeFitsCells, OrderDoesNotMatter, ReadyOrderDoesNotMatter};
ghost use Rattle.run_data.specs.laws.Trees.{CommittedByFrames, TreeOfFrames};
ghost use Rattle.run_data.specs.laws.WaveGenerations.{GenerationByFrames};

/// Job by job and a generation at a time a batch makes the same frames, with the same costs, the same least fault and the
/// same order by path, and each generation needs but the frames of its own jobs.
pub fn same_by_generations()
    ensures same { SameByGenerations }
    ensures alike { AlikeByGenerations }
    ensures frames { GenerationByFrames }
{}

/// Where no frame has faulted, the frames of a batch give its tree, and so what it commits.
pub fn tree_is_rebuilt()
    ensures tree { TreeOfFrames }
    ensures committed { CommittedByFrames }
{}

/// What the jobs of a batch make depends on the cells that one of its frames read, and on nothing else of their view.
pub fn made_depends_on_reads()
    ensures made { MadeDependsOnReads }
    ensures ready { ReadyInView }
{}

/// A batch does not depend on the order in which its ready jobs are listed: of jobs that are apart and whose effects fit the
/// cells, as those of a valid model do, and so wherever the simulation of a plan of a valid model comes.
pub fn order_does_not_matter()
    ensures any { OrderDoesNotMatter }
    ensures fits { MadeFitsCells }
    ensures ready { ReadyOrderDoesNotMatter }
{}
