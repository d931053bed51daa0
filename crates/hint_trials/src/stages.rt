//! How far the judging of a session comes.

ghost use Rattle.std.specs.Prelude.{◌≡◌};
ghost use Rattle.hint_trials.specs.Reached.{comes_before, is_further, spot_of, stage_of};

use aerie_base::Place;

/// How far the judging of a session comes: the stage of its first refusal, and there the place, the offset or the number of what is
/// refused. The stages are in the order in which a session is judged.
#[derive(Clone, Copy, Debug)]
pub enum Reach {
    /// It has too many bytes.
    Size,
    /// The byte at this offset, from 0, does not belong to a text.
    Bytes(usize),
    /// The form or a limit is broken at this place.
    Form(Place),
    /// A model, a name or a beginning is refused at this place.
    Checks(Place),
    /// The text at this place is no instant.
    Start(Place),
    /// The directive of this number, from 0, is refused.
    Directive(u32),
    /// The client at this place has the name of an earlier one.
    Client(Place),
    /// The dataset of this number, from 0, is refused.
    Dataset(u32),
    /// A constraint, a goal or a sequence is refused at this place. The sections of constraints stand in front of those of goals, and
    /// these in front of sequences.
    Rules(Place),
    /// Nothing is refused.
    Accepted,
}

/// The spot of a place.
fn spot_of_place(place: Place) -> (usize, usize)
    ensures { result ≡ (place.line, place.column) }
{
    (place.line as usize, place.column as usize)
}

/// Whether the first spot comes before the second.
fn comes_before(one: (usize, usize), other: (usize, usize)) -> bool
    ensures { result ≡ comes_before one other }
{
    one.0 < other.0 || one.0 == other.0 && one.1 < other.1
}

impl Reach {
    /// The number of the stage.
    fn stage(self) -> u8
        ensures { result ≡ stage_of self }
    {
        match self {
            Reach::Size => 0,
            Reach::Bytes(_) => 1,
            Reach::Form(_) => 2,
            Reach::Checks(_) => 3,
            Reach::Start(_) => 4,
            Reach::Directive(_) => 5,
            Reach::Client(_) => 6,
            Reach::Dataset(_) => 7,
            Reach::Rules(_) => 8,
            Reach::Accepted => 9,
        }
    }

    /// Where in its stage it stands.
    fn spot(self) -> (usize, usize)
        ensures { result ≡ spot_of self }
    {
        match self {
            Reach::Size | Reach::Accepted => (0, 0),
            Reach::Bytes(at) => (at, 0),
            Reach::Directive(number) | Reach::Dataset(number) => (number as usize, 0),
            Reach::Form(place)
            | Reach::Checks(place)
            | Reach::Start(place)
            | Reach::Client(place)
            | Reach::Rules(place) => spot_of_place(place),
        }
    }

    /// Whether the judging that comes to `other` comes further than this one: to a later stage, or in the same stage to a later
    /// place or number.
    pub fn is_passed_by(self, other: Reach) -> bool
        ensures { result ≡ is_further self other }
    {
        let stage = self.stage();
        let later = other.stage();
        stage < later || stage == later && comes_before(self.spot(), other.spot())
    }
}
