//! The rules of a sequence that are meant.

ghost use Rattle.std.specs.Prelude.{◌≡◌, ◌++◌, IfOk, OnOk, map, option_map};
ghost use Rattle.rule_check.specs.SequenceMeaning.{number_of_parameter, meant_word, meant_words, meant_test, meant_step, meant_rules, meant_spacings, sequencing_of};

use crate::literals::{activity_named, literal_value, parameters_if_known, position_of_parameter};
use crate::window::meaning::{number_of_type, number_or_first, signed_time, time_within};
use aerie_base::{List, Model, Name, OutOfMemory, Parameter, Time};
use model_reader::RawName;
use rule_grammar::{RawSendTest, RawSequenceItem, RawSequenceRule, RawStep, RawWord, RawWordKind};
use seq_expand::{SendStep, SendTest, SendWord, Sequencing, SpanRule};
use std::alloc::Global;

/// The number of a parameter.
fn number_of_parameter(parameters: &[Parameter], name: &RawName) -> u16
    ensures { result ≡ number_of_parameter parameters.now name.now }
{
    number_or_first(position_of_parameter(parameters, &name.name))
}

fn meant_word(model: &Model, parameters: &[Parameter], word: &RawWordKind) -> SendWord
    ensures { result ≡ meant_word model.now parameters.now word.now }
{
    match word {
        RawWordKind::Literal(literal) => SendWord::Value(literal_value(model, literal)),
        RawWordKind::Parameter(name) => SendWord::Parameter(number_of_parameter(parameters, name)),
        RawWordKind::SpanResult => SendWord::SpanResult,
    }
}

/// The words that are meant, in their order.
fn meant_words(
    alloc: Global,
    model: &Model,
    parameters: &[Parameter],
    words: &[RawWord],
) -> Result<List<SendWord>, OutOfMemory>
    ensures { IfOk result (λ meant. meant ≡ meant_words model.now parameters.now words.now) }
{
    let mut meant = List::new(alloc);
    for word in words {
        meant.push(meant_word(model, parameters, &word.what))?;
    }
    Ok(meant)
}

fn meant_test(
    model: &Model,
    parameters: &[Parameter],
    test: &Option<RawSendTest>,
) -> Option<SendTest>
    ensures { result ≡ option_map (meant_test model.now parameters.now) test.now }
{
    match test {
        Some(test) => Some(SendTest {
            parameter: number_of_parameter(parameters, &test.parameter),
            how: test.how,
            with: literal_value(model, &test.with.what),
        }),
        None => None,
    }
}

fn meant_step(
    alloc: Global,
    model: &Model,
    parameters: &[Parameter],
    step: &RawStep,
) -> Result<SendStep, OutOfMemory>
    ensures { IfOk result (λ meant. meant ≡ meant_step model.now parameters.now step.now) }
{
    let name = step.name.name.copy(alloc)?;
    let words = meant_words(alloc, model, parameters, step.words.as_slice())?;
    Ok(SendStep {
        edge: step.edge,
        shift: signed_time(step.shift),
        name,
        words,
        test: meant_test(model, parameters, &step.test),
    })
}

/// The steps that are meant, in their order.
fn meant_steps(
    alloc: Global,
    model: &Model,
    parameters: &[Parameter],
    steps: &[RawStep],
) -> Result<List<SendStep>, OutOfMemory>
    ensures { IfOk result (λ meant. meant ≡ map (meant_step model.now parameters.now) steps.now) }
{
    let mut meant = List::new(alloc);
    for step in steps {
        meant.push(meant_step(alloc, model, parameters, step)?)?;
    }
    Ok(meant)
}

/// Puts the rule for the spans of a type behind the others, where this is one.
fn put_rule(
    alloc: Global,
    model: &Model,
    rule: &RawSequenceRule,
    rules: &mut List<SpanRule>,
) -> Result<(), OutOfMemory>
    ensures { OnOk result (rules.new ≡ rules.old ++ meant_rules model.now rule.now) }
{
    match rule {
        RawSequenceRule::Span { kind, steps } => {
            let parameters = parameters_if_known(activity_named(model, &kind.name));
            let steps = meant_steps(alloc, model, parameters, steps.as_slice())?;
            rules.push(SpanRule {
                kind: number_of_type(model, kind),
                steps,
            })
        }
        RawSequenceRule::Spacing { .. } => Ok(()),
    }
}

/// Puts the spacing of commands of a name behind the others, where this is one.
fn put_spacing(
    alloc: Global,
    rule: &RawSequenceRule,
    spacings: &mut List<(Name, Time)>,
) -> Result<(), OutOfMemory>
    ensures { OnOk result (spacings.new ≡ spacings.old ++ meant_spacings rule.now) }
{
    match rule {
        RawSequenceRule::Span { .. } => Ok(()),
        RawSequenceRule::Spacing { name, least } => {
            let name = name.name.copy(alloc)?;
            spacings.push((name, time_within(*least)))
        }
    }
}

/// The rules that are meant, each sort in the order of the text.
pub(crate) fn sequencing_of(
    alloc: Global,
    model: &Model,
    raw: &List<RawSequenceItem>,
) -> Result<Sequencing, OutOfMemory>
    ensures { IfOk result (λ sequencing. sequencing ≡ sequencing_of model.now raw.now) }
{
    let mut rules = List::new(alloc);
    let mut spacings = List::new(alloc);
    for item in raw.as_slice() {
        put_rule(alloc, model, &item.rule, &mut rules)?;
        put_spacing(alloc, &item.rule, &mut spacings)?;
    }
    Ok(Sequencing { rules, spacings })
}
