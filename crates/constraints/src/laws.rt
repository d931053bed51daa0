//! Laws of rules, the promises of functions without a body.

ghost use Rattle.std.specs.Prelude.{IsTrue};
ghost use Rattle.dataset_in.specs.Series.{IsSeries};
ghost use Rattle.dataset_in.specs.declared.series.Series.{Series};
ghost use Rattle.constraints.specs.Alike.{AlikeRunsAreJudgedAlike};
ghost use Rattle.constraints.specs.GivenSeries.{is_series};

/// Rules may read each dataset that was read.
pub fn read_series_may_be_given()
    ensures { (series : Series) → IsSeries series → IsTrue (is_series series) }
{}

/// A constraint has the same violations on two runs that end at the same time and are alike in what it names: the spans of each
/// activity type, the values of each resource.
pub fn alike_runs_are_judged_alike()
    ensures { AlikeRunsAreJudgedAlike }
{}
