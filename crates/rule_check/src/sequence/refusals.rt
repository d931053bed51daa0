//! What is refused of the rules of a sequence is found. The time is linear in the rules, but for looking up names, and rules of
//! the same name among at most 256.

ghost use Rattle.std.specs.Prelude.{◌≡◌, ◌≤◌, length, option_copied};
ghost use Rattle.std.specs.List.{list_any};
ghost use Rattle.aerie_base.specs.expressions.Typing.{may_compare};
ghost use Rattle.rule_check.specs.Refusals.{noted};
ghost use Rattle.rule_check.specs.SequenceRefusals.{refusals_of_parameter, refusals_of_word, refusals_of_words, may_be_compared, kind_of_parameter, refusals_of_test, refusals_of_step, refusals_of_steps, refusals_of_type_steps, is_for, is_spacing_of, refusals_of_sequence_rule, refusals_of_rules_from};

use crate::causes::WrongRule;
use crate::literals::{
    activity_named, judge_literal, known_parameter, literal_kind, position_of_parameter,
};
use crate::names::is_of_kind;
use crate::window::refusals::judge_type;
use aerie_base::{Activity, Comparison, Kind, Model, Name, Parameter};
use diagnostics::{Diagnostic, note, note_unless};
use model_reader::RawName;
use readers::Limit;
use rule_grammar::{RawSendTest, RawSequenceItem, RawSequenceRule, RawStep, RawWord, RawWordKind};

/// How many rules a sequence may have, `for` and `longer` counted together.
const MOST_RULES: usize = 256;

/// How many steps a rule may have.
const MOST_STEPS: usize = 64;

/// How many words a step may have.
const MOST_WORDS: usize = 16;

// ---- words

/// Refuses a name of no parameter.
fn judge_parameter(
    parameters: &[Parameter],
    name: &RawName,
    found: &mut Option<Diagnostic<WrongRule>>,
)
    ensures { found.new ≡ noted found.old (refusals_of_parameter parameters.now name.now) }
{
    let is_known = position_of_parameter(parameters, &name.name).is_some();
    note_unless(is_known, found, name.at, WrongRule::Unknown);
}

/// Judges a word of a step for an activity type.
fn judge_word(
    model: &Model,
    activity: &Activity,
    word: &RawWord,
    found: &mut Option<Diagnostic<WrongRule>>,
)
    ensures { found.new ≡ noted found.old (refusals_of_word model.now activity.now word.now) }
{
    match &word.what {
        RawWordKind::Literal(literal) => judge_literal(model, literal, found),
        RawWordKind::Parameter(name) => {
            judge_parameter(activity.parameters.as_slice(), name, found);
        }
        RawWordKind::SpanResult => {
            let has_result = activity.result.is_some();
            note_unless(has_result, found, word.at, WrongRule::WrongType);
        }
    }
}

/// Judges words of a step, of which there may be so many more.
#[tactic(auto, using(diagnostics::specs::NotedInTurn::noted_appended))]
fn judge_words(
    model: &Model,
    activity: &Activity,
    words: &[RawWord],
    room: usize,
    found: &mut Option<Diagnostic<WrongRule>>,
)
    ensures { found.new ≡ noted found.old (refusals_of_words model.now activity.now room words.now) }
{
    match words.split_first() {
        None => {}
        Some((word, rest)) => {
            if room == 0 {
                note(found, word.at, WrongRule::TooMany(Limit::Words));
            } else {
                judge_word(model, activity, word, found);
                judge_words(model, activity, rest, room - 1, found);
            }
        }
    }
}

// ---- tests

/// Whether values of two types may be compared.
fn may_compare(how: Comparison, left: Kind, right: Kind) -> bool
    ensures { result ≡ may_compare how left right }
{
    match how {
        Comparison::Equal | Comparison::Unequal => is_of_kind(right, Some(left)),
        Comparison::Less | Comparison::AtMost | Comparison::More | Comparison::AtLeast => {
            is_of_kind(Kind::Int, Some(left)) && is_of_kind(Kind::Int, Some(right))
        }
    }
}

/// Whether values of two types may be compared, as far as they are known.
fn may_be_compared(how: Comparison, left: Option<Kind>, right: Option<Kind>) -> bool
    ensures { result ≡ may_be_compared how left right }
{
    match (left, right) {
        (Some(left), Some(right)) => may_compare(how, left, right),
        _ => true,
    }
}

/// The type of a parameter.
fn kind_of_parameter(parameters: &[Parameter], name: &Name) -> Option<Kind>
    ensures { result ≡ kind_of_parameter parameters.now name.now }
{
    match known_parameter(parameters, name) {
        Some(parameter) => Some(parameter.kind),
        None => None,
    }
}

/// Judges the test of a step, where it has one.
#[tactic(auto, using(diagnostics::specs::NotedInTurn::noted_appended))]
fn judge_test(
    model: &Model,
    activity: &Activity,
    test: &Option<RawSendTest>,
    found: &mut Option<Diagnostic<WrongRule>>,
)
    ensures { found.new ≡ noted found.old (refusals_of_test model.now activity.now test.now) }
{
    match test {
        None => {}
        Some(test) => {
            let parameters = activity.parameters.as_slice();
            let kind = kind_of_parameter(parameters, &test.parameter.name);
            let may = may_be_compared(test.how, kind, literal_kind(model, &test.with.what));
            judge_parameter(parameters, &test.parameter, found);
            judge_literal(model, &test.with.what, found);
            note_unless(may, found, test.with.at, WrongRule::WrongType);
        }
    }
}

// ---- steps

/// Judges a step.
#[tactic(auto, using(diagnostics::specs::NotedInTurn::noted_appended))]
fn judge_step(
    model: &Model,
    activity: &Activity,
    step: &RawStep,
    found: &mut Option<Diagnostic<WrongRule>>,
)
    ensures { found.new ≡ noted found.old (refusals_of_step model.now activity.now step.now) }
{
    judge_words(model, activity, step.words.as_slice(), MOST_WORDS, found);
    judge_test(model, activity, &step.test, found);
}

/// Judges steps, of which there may be so many more.
#[tactic(auto, using(diagnostics::specs::NotedInTurn::noted_appended))]
fn judge_steps(
    model: &Model,
    activity: &Activity,
    steps: &[RawStep],
    room: usize,
    found: &mut Option<Diagnostic<WrongRule>>,
)
    ensures { found.new ≡ noted found.old (refusals_of_steps model.now activity.now room steps.now) }
{
    match steps.split_first() {
        None => {}
        Some((step, rest)) => {
            if room == 0 {
                note(found, step.at, WrongRule::TooMany(Limit::Steps));
            } else {
                judge_step(model, activity, step, found);
                judge_steps(model, activity, rest, room - 1, found);
            }
        }
    }
}

/// Judges the steps for a type, where it is known.
fn judge_type_steps(
    model: &Model,
    activity: Option<&Activity>,
    steps: &[RawStep],
    found: &mut Option<Diagnostic<WrongRule>>,
)
    ensures { found.new ≡ noted found.old (refusals_of_type_steps model.now (option_copied activity.entry) steps.now) }
{
    match activity {
        None => {}
        Some(activity) => judge_steps(model, activity, steps, MOST_STEPS, found),
    }
}

// ---- rules

/// Whether the rule is one for the type of this name.
fn is_for(name: &Name, rule: &RawSequenceRule) -> bool
    ensures { result ≡ is_for name.now rule.now }
{
    match rule {
        RawSequenceRule::Span { kind, .. } => kind.name == *name,
        RawSequenceRule::Spacing { .. } => false,
    }
}

/// Whether the rule is a spacing of commands of this name.
fn is_spacing_of(name: &Name, rule: &RawSequenceRule) -> bool
    ensures { result ≡ is_spacing_of name.now rule.now }
{
    match rule {
        RawSequenceRule::Span { .. } => false,
        RawSequenceRule::Spacing { name: other, .. } => other.name == *name,
    }
}

/// Whether one of the rules is for the type of this name.
fn has_rule_for(rules: &[RawSequenceItem], name: &Name) -> bool
    ensures { result ≡ list_any (λ other. is_for name.now other.rule) rules.now }
{
    rules.iter().any(|other| is_for(name, &other.rule))
}

/// Whether one of the rules is a spacing of commands of this name.
fn has_spacing_of(rules: &[RawSequenceItem], name: &Name) -> bool
    ensures { result ≡ list_any (λ other. is_spacing_of name.now other.rule) rules.now }
{
    rules.iter().any(|other| is_spacing_of(name, &other.rule))
}

/// Judges a rule behind others.
#[tactic(auto, using(diagnostics::specs::NotedInTurn::noted_appended))]
fn judge_rule(
    model: &Model,
    others: &[RawSequenceItem],
    rule: &RawSequenceRule,
    found: &mut Option<Diagnostic<WrongRule>>,
)
    ensures { found.new ≡ noted found.old (refusals_of_sequence_rule model.now others.now rule.now) }
{
    match rule {
        RawSequenceRule::Span { kind, steps } => {
            judge_type(model, kind, found);
            let is_new = !has_rule_for(others, &kind.name);
            note_unless(is_new, found, kind.at, WrongRule::Duplicate);
            judge_type_steps(
                model,
                activity_named(model, &kind.name),
                steps.as_slice(),
                found,
            );
        }
        RawSequenceRule::Spacing { name, .. } => {
            let is_new = !has_spacing_of(others, &name.name);
            note_unless(is_new, found, name.at, WrongRule::Duplicate);
        }
    }
}

/// Judges the rules from this number on.
pub(crate) fn judge_from(
    model: &Model,
    rules: &[RawSequenceItem],
    at: usize,
    found: &mut Option<Diagnostic<WrongRule>>,
)
    requires few { at ≤ 256 }
    requires there { at ≤ length rules.now }
    ensures { found.new ≡ noted found.old (refusals_of_rules_from model.now at rules.now) }
{
    let (others, rest) = rules.split_at(at);
    match rest.split_first() {
        None => {}
        Some((rule, _)) => {
            if at == MOST_RULES {
                note(found, rule.at, WrongRule::TooMany(Limit::Rules));
            } else {
                judge_rule(model, others, &rule.rule, found);
                judge_from(model, rules, at + 1, found);
            }
        }
    }
}
