//! Laws of the grammar of rules, each the promise of a function without a body.

ghost use Rattle.std.specs.Prelude.{List};
ghost use Rattle.readers.specs.Marks.{Mark};
ghost use Rattle.readers.specs.Verdicts.{JudgesAll};
ghost use Rattle.readers.specs.grammar.Alike.{AreAlike};
ghost use Rattle.readers.specs.grammar.Predictive.{IsPredictive};
ghost use Rattle.readers.specs.grammar.Tells.{AnswersAreRight};
ghost use Rattle.rule_grammar.specs.grammar.Factored.{look, factored};
ghost use Rattle.rule_grammar.specs.grammar.Rules.{constraints_rule, goals_rule, sequence_rule};
ghost use Rattle.rule_grammar.specs.grammar.Written.{written};
ghost use Rattle.rule_grammar.specs.reading.Constraints.{constraints_at};
ghost use Rattle.rule_grammar.specs.reading.Goals.{goals_at};
ghost use Rattle.rule_grammar.specs.reading.Sequences.{sequence_at};
ghost use Rattle.rule_grammar.specs.reading.ToTheEnd.{to_the_end};

/// In the factored grammar of rules one token of lookahead decides, and it reads what the grammar as it is written reads.
pub fn one_token_decides()
    ensures decides { IsPredictive look }
    ensures constraints { AreAlike written constraints_rule factored constraints_rule }
    ensures goals { AreAlike written goals_rule factored goals_rule }
    ensures sequences { AreAlike written sequence_rule factored sequence_rule }
{}

/// Where a reader that looks one mark ahead stops, every reading of the grammar as it is written stops.
pub fn answers_are_right()
    ensures constraints { AnswersAreRight look constraints_rule written constraints_rule }
    ensures goals { AnswersAreRight look goals_rule written goals_rule }
    ensures sequences { AnswersAreRight look sequence_rule written sequence_rule }
{}

/// What is read of all of some marks tells of the readings of the grammar as it is written: constraints are read where the
/// marks are some; reading fails at the first mark that is refused, or at the end where that is refused; and a limit is passed
/// at a mark that some reading reads. So it is with goals and with sequences.
pub fn rules_are_judged()
    ensures constraints { (marks : List Mark) → JudgesAll written constraints_rule marks (to_the_end (constraints_at marks)) }
    ensures goals { (marks : List Mark) → JudgesAll written goals_rule marks (to_the_end (goals_at marks)) }
    ensures sequences { (marks : List Mark) → JudgesAll written sequence_rule marks (to_the_end (sequence_at marks)) }
{}
