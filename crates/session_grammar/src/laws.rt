//! Laws of the grammar of sessions, each the promise of a function without a body.

ghost use Rattle.std.specs.Prelude.{List};
ghost use Rattle.model_reader.specs.grammar.Rules.{model_rule};
ghost use Rattle.model_reader.specs.reading.Models.{model_at};
ghost use Rattle.readers.specs.Conforms.{Conforms};
ghost use Rattle.readers.specs.Marks.{Mark};
ghost use Rattle.readers.specs.grammar.Alike.{AreAlike};
ghost use Rattle.readers.specs.grammar.Forms.{rule};
ghost use Rattle.readers.specs.grammar.Predictive.{IsPredictive};
ghost use Rattle.readers.specs.grammar.Tells.{AnswersAreRight};
ghost use Rattle.session_grammar.specs.SessionAnswers.{JudgesSession};
ghost use Rattle.session_grammar.specs.SessionLimits.{ReadsLimitedSessions};
ghost use Rattle.session_grammar.specs.grammar.Factored.{look, factored};
ghost use Rattle.session_grammar.specs.grammar.Rules.{session_rule, of_model};
ghost use Rattle.session_grammar.specs.grammar.Written.{written};
ghost use Rattle.session_grammar.specs.reading.Sessions.{session_at, whole_session_at};

use model_reader::laws::{models_are_within_limits, models_conform};

/// In the factored grammar of sessions one token of lookahead decides, and it reads what the grammar as it is written reads.
pub fn one_token_decides()
    ensures decides { IsPredictive look }
    ensures alike { AreAlike written session_rule factored session_rule }
{}

/// Where a reader that looks one mark ahead stops, every reading of the grammar as it is written stops.
pub fn answers_are_right()
    ensures { AnswersAreRight look session_rule written session_rule }
{}

/// Inside a session too, what is read of a model conforms to the rule of models: the next token decides, the reader stops where
/// every reading of the session's grammar stops, and a limit is passed at a token that some reading reads.
pub fn models_conform_in_sessions()
    ensures { (marks : List Mark) → Conforms look (rule (of_model model_rule)) marks (model_at marks) }
{
    models_conform();
    model_reader::laws::one_token_decides();
}

/// What is read of a session conforms to its rule, and what is read of a whole text tells of the readings of the grammar as it is
/// written: a session is read where the marks are one; reading fails at the first mark that is refused, or at the end where
/// that is refused; and a limit is passed at a mark that some reading reads.
pub fn sessions_conform()
    ensures conforms { (marks : List Mark) → Conforms look (rule session_rule) marks (session_at marks) }
    ensures judged { (marks : List Mark) → JudgesSession marks (whole_session_at marks) }
{
    models_conform_in_sessions();
}

/// What is read of marks that count numbers is within the limits of a session.
pub fn sessions_are_limited()
    ensures { ReadsLimitedSessions }
{
    models_conform_in_sessions();
    models_are_within_limits();
}
