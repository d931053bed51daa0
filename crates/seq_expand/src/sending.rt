//! The commands of spans.

ghost use Rattle.std.specs.Prelude.{◌≡◌, ◌++◌, [], true, IfOk, OnOk, IsTrue, Some, slice_get};
ghost use Rattle.std.specs.List.{list_all};
ghost use Rattle.aerie_base.specs.expressions.Arithmetic.{compares as compares_values};
ghost use Rattle.span_table.specs.AsDefined.{defined_span};
ghost use Rattle.seq_expand.specs.OfModel.{has_shift};
ghost use Rattle.seq_expand.specs.Sending.{edge_time as time_of_edge, word_value as value_of_word, word_values as values_of_words, test_holds as holds_of, sent_of as sent_by, command_with, sent_by_steps, sent_before, steps_for as steps_of};

use crate::rules::{SendStep, SendTest, SendWord, SpanRule};
use crate::sequence::Sent;
use aerie_base::{Comparison, Edge, List, OutOfMemory, Time, Value, number_in, same_value};
use span_table::Span;
use std::alloc::Global;

/// The time of an edge of a span; an unfinished one has no end.
fn edge_time(edge: Edge, span: &Span) -> Option<Time>
    ensures { result ≡ time_of_edge edge (defined_span span.now) }
{
    match edge {
        Edge::Start => Some(span.start),
        Edge::End => span.end,
    }
}

/// A span's argument for a parameter.
fn argument(span: &Span, parameter: u16) -> Option<Value>
    ensures { result ≡ slice_get span.now.arguments parameter }
{
    span.arguments.as_slice().get(parameter as usize).copied()
}

/// The value of a word, where the span has it.
fn word_value(span: &Span, word: &SendWord) -> Option<Value>
    ensures { result ≡ value_of_word (defined_span span.now) word.now }
{
    match word {
        SendWord::Value(value) => Some(*value),
        SendWord::Parameter(parameter) => argument(span, *parameter),
        SendWord::SpanResult => span.result,
    }
}

/// The values of all words, where the span has all of them.
fn word_values(
    alloc: Global,
    span: &Span,
    words: &[SendWord],
) -> Result<Option<List<Value>>, OutOfMemory>
    ensures { IfOk result (λ values. values ≡ values_of_words (defined_span span.now) words.now) }
{
    let mut values = List::new(alloc);
    for word in words {
        match word_value(span, word) {
            Some(value) => values.push(value)?,
            None => return Ok(None),
        }
    }
    Ok(Some(values))
}

/// Whether a comparison holds between two values: equality of any two, the orders of whole numbers.
fn compares(how: Comparison, left: &Value, right: &Value) -> bool
    ensures { result ≡ compares_values how left.now right.now }
{
    match how {
        Comparison::Equal => same_value(left, right),
        Comparison::Unequal => !same_value(left, right),
        Comparison::Less => number_in(left) < number_in(right),
        Comparison::AtMost => number_in(left) <= number_in(right),
        Comparison::More => number_in(left) > number_in(right),
        Comparison::AtLeast => number_in(left) >= number_in(right),
    }
}

/// Whether the test of a step holds of the span.
fn test_holds(span: &Span, test: &Option<SendTest>) -> bool
    ensures { result ≡ holds_of (defined_span span.now) test.now }
{
    match test {
        None => true,
        Some(test) => match argument(span, test.parameter) {
            Some(value) => compares(test.how, &value, &test.with),
            None => false,
        },
    }
}

/// The command of a step with these values.
fn sent_with(
    alloc: Global,
    span: &Span,
    step: &SendStep,
    time: Time,
    arguments: List<Value>,
) -> Result<Sent, OutOfMemory>
    requires { has_shift step.now ≡ true }
    ensures { IfOk result (λ sent. Some sent ≡ command_with (defined_span span.now) step.now (Some time) (Some arguments)) }
{
    let path = span.path.copy(alloc)?;
    let name = step.name.copy(alloc)?;
    Ok(Sent {
        at: time.get() + step.shift,
        path,
        name,
        arguments,
    })
}

/// The command that a span gives by a step, if it gives one.
fn sent_of(alloc: Global, span: &Span, step: &SendStep) -> Result<Option<Sent>, OutOfMemory>
    requires { has_shift step.now ≡ true }
    ensures { IfOk result (λ sent. sent ≡ sent_by (defined_span span.now) step.now) }
{
    if !test_holds(span, &step.test) {
        return Ok(None);
    }
    let time = match edge_time(step.edge, span) {
        Some(time) => time,
        None => return Ok(None),
    };
    match word_values(alloc, span, step.words.as_slice())? {
        Some(values) => Ok(Some(sent_with(alloc, span, step, time, values)?)),
        None => Ok(None),
    }
}

/// Puts a command behind the others, if there is one.
fn put(sent: Option<Sent>, commands: &mut Vec<Sent>) -> Result<(), OutOfMemory>
    ensures { OnOk result (commands.new.items ≡ commands.old.items ++ sent_before sent []) }
{
    if let Some(sent) = sent {
        commands.push(sent)?;
    }
    Ok(())
}

/// Puts the commands of a span's steps behind the others.
pub(crate) fn send_steps(
    alloc: Global,
    span: &Span,
    steps: &[SendStep],
    commands: &mut Vec<Sent>,
) -> Result<(), OutOfMemory>
    requires { IsTrue (list_all has_shift steps.now) }
    ensures { OnOk result (commands.new.items ≡ commands.old.items ++ sent_by_steps (defined_span span.now) steps.now) }
{
    for step in steps {
        put(sent_of(alloc, span, step)?, commands)?;
    }
    Ok(())
}

/// The steps for an activity type: none where no rule is of it.
pub(crate) fn steps_for(kind: u16, rules: &[SpanRule]) -> &[SendStep]
    ensures { result.now ≡ steps_of kind rules.now }
{
    for rule in rules {
        if rule.kind == kind {
            return rule.steps.as_slice();
        }
    }
    &[]
}
