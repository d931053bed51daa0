//! What is wrong with a text that is checked, and where.

ghost use Rattle.std.specs.Prelude.{◌≡◌, Some};
ghost use Rattle.diagnostics.specs.Diagnostics.{is_place_before, is_told_before, sooner_by, noted_by, refused_unless};

use aerie_base::Place;

/// Why something is refused, with a rank: of several causes at one place, the one with the least rank is told.
pub trait Ranked: Copy {
    ghost use Rattle.std.specs.Prelude.{ℕ};

    ghost rank: { Self → ℕ };

    /// The rank of the cause.
    fn rank(self) -> u8
        ensures { result ≡ rank self };
}

/// A cause where it stands.
#[derive(Clone, Copy, Debug)]
pub struct Diagnostic<C> {
    /// The place of the first token of what is refused.
    pub place: Place,
    /// Why it is refused.
    pub cause: C,
}

/// Whether one place stands before another in the text.
pub fn is_place_before(one: Place, other: Place) -> bool
    ensures { result ≡ is_place_before one other }
{
    one.line < other.line || one.line == other.line && one.column < other.column
}

/// Whether one comes before another: it stands before it, or its rank is less at the same place.
fn is_told_before<C: Ranked>(one: Diagnostic<C>, other: Diagnostic<C>) -> bool
    ensures { result ≡ is_told_before C.rank one other }
{
    is_place_before(one.place, other.place)
        || !is_place_before(other.place, one.place) && one.cause.rank() < other.cause.rank()
}

/// The first of both.
fn first_of<C: Ranked>(found: Option<Diagnostic<C>>, new: Diagnostic<C>) -> Diagnostic<C>
    ensures { sooner_by C.rank found new ≡ Some result }
{
    match found {
        Some(old) => { if is_told_before(new, old) { new } else { old } }
        None => new,
    }
}

/// Keeps the first of what was found.
pub fn note<C: Ranked>(found: &mut Option<Diagnostic<C>>, place: Place, cause: C)
    ensures { found.new ≡ sooner_by C.rank found.old (record { place = place; cause = cause }) }
{
    *found = Some(first_of(*found, Diagnostic { place, cause }));
}

/// Keeps the first of what was found, where something does not hold.
pub fn note_unless<C: Ranked>(
    holds: bool,
    found: &mut Option<Diagnostic<C>>,
    place: Place,
    cause: C,
)
    ensures { found.new ≡ noted_by C.rank found.old (refused_unless holds cause place) }
{
    if !holds {
        note(found, place, cause);
    }
}
