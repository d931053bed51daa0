//! Laws of what a book has learnt.

ghost use Rattle.history_store.specs.laws.Learnt.{LearntComeFromChapters, LearntStay, ModelStays};

use record_book::laws::what_is_taken_in_is_held;

/// A book that has learnt is of the same model and holds all that it held. What else it holds is of the chapters that it took in.
pub fn what_is_learnt_is_held()
    ensures model { ModelStays }
    ensures stay { LearntStay }
    ensures no_others { LearntComeFromChapters }
{
    what_is_taken_in_is_held();
}
