//! Laws of the grammar of models, each the promise of a function without a body.

ghost use Rattle.std.specs.Prelude.{List};
ghost use Rattle.readers.specs.Conforms.{Conforms};
ghost use Rattle.readers.specs.Marks.{Mark};
ghost use Rattle.readers.specs.grammar.Alike.{AreAlike};
ghost use Rattle.readers.specs.grammar.Forms.{rule};
ghost use Rattle.readers.specs.grammar.Predictive.{IsPredictive};
ghost use Rattle.readers.specs.grammar.Tells.{AnswersAreRight};
ghost use Rattle.readers.specs.Verdicts.{Judges};
ghost use Rattle.model_reader.specs.ModelAnswers.{FailsWhereNoModelBegins, ReadsWithinLimits};
ghost use Rattle.model_reader.specs.grammar.Factored.{look, factored};
ghost use Rattle.model_reader.specs.grammar.Rules.{model_rule};
ghost use Rattle.model_reader.specs.grammar.Written.{written};
ghost use Rattle.model_reader.specs.reading.Models.{model_at};

/// In the factored grammar of models one token of lookahead decides, and it reads what the grammar as it is written reads.
pub fn one_token_decides()
    ensures decides { IsPredictive look }
    ensures alike { AreAlike written model_rule factored model_rule }
{}

/// Where a reader that looks one mark ahead stops, every reading of the grammar as it is written stops.
pub fn answers_are_right()
    ensures { AnswersAreRight look model_rule written model_rule }
{}

/// What is read of any marks conforms to the rule of models, and so it tells of the readings of the grammar as it is
/// written: a model is read where the marks before those that are left are one; reading fails at the first mark that is
/// refused, or at the end where that is refused, and then the marks do not begin with a model; and a limit is passed at a
/// mark that some reading reads.
pub fn models_conform()
    ensures conforms { (marks : List Mark) → Conforms look (rule model_rule) marks (model_at marks) }
    ensures judged { (marks : List Mark) → Judges written model_rule marks (model_at marks) }
    ensures failed { FailsWhereNoModelBegins }
{}

/// What is read of marks that count numbers is within the limits.
pub fn models_are_within_limits()
    ensures { ReadsWithinLimits }
{}
