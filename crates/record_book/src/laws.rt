//! Laws of what a book has taken in.

ghost use Rattle.record_book.specs.laws.TakenIn.{HeldStay, NoneIsHeldTwice, NoOthersAreHeld, TakenAreHeld};

/// A book with more records holds those that it had and, for each that it took in, one with its state and its reads; it holds no
/// others, and no two with the same state and reads.
pub fn what_is_taken_in_is_held()
    ensures taken { TakenAreHeld }
    ensures stay { HeldStay }
    ensures no_others { NoOthersAreHeld }
    ensures once { NoneIsHeldTwice }
{}
