//! Laws of what is answered of a text, each the promise of a function without a body.

ghost use Rattle.std.specs.Prelude.{ℕ, List};
ghost use Rattle.session_reader.specs.Answers.{Answer, IsMade};
ghost use Rattle.session_reader.specs.PlacedBeginnings.{BeginningsArePlaced};
ghost use Rattle.session_reader.specs.SessionTexts.{text_answer};
ghost use Rattle.session_reader.specs.SessionVerdicts.{TellsOfReadings};
ghost use Rattle.session_reader.specs.declared.session.Session.{Session};

use session_grammar::laws::sessions_conform;

/// What is answered of a text tells of the readings of the grammar as it is written. A syntax error stands at the first token up to
/// which, and with it, no reading reads, or at the end; and where no token begins, at the first such token in front, or else there. A
/// limit is passed at a token that some reading reads. A session, or what is refused of its meaning, is answered of a text that
/// is a session by the grammar.
pub fn answers_tell_of_readings()
    ensures { (text : List ℕ) (result : Answer Session) → IsMade (text_answer text) result → TellsOfReadings text result }
{
    sessions_conform();
}

/// The first model of a session is the model as it is written, with the beginnings of the plan section in place: these are all
/// that the section changes, and each other model is as it is written.
pub fn beginnings_are_placed()
    ensures { BeginningsArePlaced }
{}
