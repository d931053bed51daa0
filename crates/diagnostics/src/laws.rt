//! A law of what is noted, the promise of a function without a body.

ghost use Rattle.std.specs.Prelude.{◌≡◌, List, Some};
ghost use Rattle.diagnostics.specs.declared.diagnostic.Diagnostic.{Diagnostic};
ghost use Rattle.diagnostics.specs.Diagnostics.{first_by};
ghost use Rattle.diagnostics.specs.FirstTold.{IsToldFirst};

use crate::diagnostic::Ranked;

/// What is told first of several is one of them, and no other comes before it in the text, nor at the same place by its rank.
pub fn the_first_is_told<C: Ranked>()
    ensures { (wrong : List (Diagnostic C)) (first : Diagnostic C) → first_by C.rank wrong ≡ Some first → IsToldFirst C.rank first wrong }
{}
