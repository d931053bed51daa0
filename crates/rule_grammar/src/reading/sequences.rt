//! Sequences. The time is linear in their tokens.

ghost use Rattle.std.specs.Prelude.{◌≡◌};
ghost use Rattle.readers.specs.Implements.{Consumes, MayConsume};
ghost use Rattle.readers.specs.Parsed.{next_fits};
ghost use Rattle.rule_grammar.specs.reading.Sequences.{literal_word, amount_word_at, truth_word_at, variant_word_at, parameter_word, named_word_at, result_word_at, sent_word_at, begins_word, words_at, signed_shift_at, optional_shift_at, time_of_step_at, send_test_at, optional_test_at, sent_at, step_of_parts, step_at, span_rule_at, spacing_least_at, spacing_at, sequence_item_at, sequence_at};

use crate::raw::{RawSendTest, RawSequenceItem, RawSequenceRule, RawStep, RawWord, RawWordKind};
use crate::reading::goals::placed_edge;
use crate::reading::sums::{behind_sign, sum_sign};
use crate::reading::tested::compare_sign;
use aerie_base::{Edge, List, Number, Place};
use aerie_text::Sort;
use model_reader::{
    RawLiteral, RawLiteralKind, RawName, amount_literal, literal, raw_name, truth_literal,
};
use readers::{Element, Reader, Refusal, ended_by, row, separated};
use std::alloc::Global;

// ---- words

/// The literal as a word.
fn literal_word(value: RawLiteral) -> RawWord
    ensures { result ≡ literal_word value }
{
    RawWord {
        at: value.at,
        what: RawWordKind::Literal(value.what),
    }
}

#[tactic(auto, unfolding(crate::specs::reading::Sequences::amount_word_at))]
fn amount_word(reader: &mut Reader) -> Result<RawWord, Refusal>
    ensures { Consumes amount_word_at reader.old reader.new result }
{
    let value = amount_literal(reader)?;
    Ok(literal_word(value))
}

#[tactic(auto, unfolding(crate::specs::reading::Sequences::truth_word_at))]
fn truth_word(reader: &mut Reader, sort: Sort, truth: bool) -> Result<RawWord, Refusal>
    ensures { Consumes (truth_word_at sort truth) reader.old reader.new result }
{
    let value = truth_literal(reader, sort, truth)?;
    Ok(literal_word(value))
}

/// Reads a dot and the name of a variant, behind the name of its enumeration.
#[tactic(auto, unfolding(crate::specs::reading::Sequences::variant_word_at))]
fn variant_word(alloc: Global, reader: &mut Reader, kind: RawName) -> Result<RawWord, Refusal>
    ensures { Consumes (variant_word_at kind) reader.old reader.new result }
{
    reader.take(Sort::Dot)?;
    let variant = raw_name(alloc, reader)?;
    let at = kind.at;
    let what = RawWordKind::Literal(RawLiteralKind::Variant { kind, variant });
    Ok(RawWord { at, what })
}

/// The parameter as a word.
fn parameter_word(name: RawName) -> RawWord
    ensures { result ≡ parameter_word name }
{
    RawWord {
        at: name.at,
        what: RawWordKind::Parameter(name),
    }
}

#[tactic(auto, unfolding(crate::specs::reading::Sequences::named_word_at))]
fn named_word(alloc: Global, reader: &mut Reader) -> Result<RawWord, Refusal>
    ensures { Consumes named_word_at reader.old reader.new result }
{
    let name = raw_name(alloc, reader)?;
    if reader.next_is(Sort::Dot) {
        variant_word(alloc, reader, name)
    } else {
        Ok(parameter_word(name))
    }
}

#[tactic(auto, unfolding(crate::specs::reading::Sequences::result_word_at))]
fn result_word(reader: &mut Reader) -> Result<RawWord, Refusal>
    ensures { Consumes result_word_at reader.old reader.new result }
{
    let at = reader.take(Sort::Return)?;
    let what = RawWordKind::SpanResult;
    Ok(RawWord { at, what })
}

/// A word of a command.
struct OneWord;

impl Element for OneWord {
    type Part = RawWord;

    ghost part_at = { sent_word_at };

    #[tactic(auto, unfolding(crate::specs::reading::Sequences::sent_word_at))]
    fn part(alloc: Global, reader: &mut Reader) -> Result<RawWord, Refusal> {
        if reader.next_is_one_of(&[Sort::Minus, Sort::Number, Sort::Time]) {
            amount_word(reader)
        } else if reader.next_is(Sort::True) {
            truth_word(reader, Sort::True, true)
        } else if reader.next_is(Sort::False) {
            truth_word(reader, Sort::False, false)
        } else if reader.next_is(Sort::Name) {
            named_word(alloc, reader)
        } else {
            result_word(reader)
        }
    }
}

/// Whether the next token begins a word.
fn is_at_word(reader: &Reader) -> bool
    ensures { result ≡ next_fits begins_word reader.now }
{
    reader.next_is_one_of(&[
        Sort::Return,
        Sort::Minus,
        Sort::Number,
        Sort::Time,
        Sort::True,
        Sort::False,
        Sort::Name,
    ])
}

/// Reads the words of a command, where there are any.
#[tactic(auto, unfolding(crate::specs::reading::Sequences::words_at))]
fn words(alloc: Global, reader: &mut Reader) -> Result<List<RawWord>, Refusal>
    ensures { MayConsume words_at reader.old reader.new result }
{
    if is_at_word(reader) {
        separated::<OneWord>(alloc, reader)
    } else {
        Ok(List::new(alloc))
    }
}

// ---- steps

#[tactic(auto, unfolding(crate::specs::reading::Sequences::signed_shift_at))]
fn signed_shift(reader: &mut Reader) -> Result<Number, Refusal>
    ensures { Consumes signed_shift_at reader.old reader.new result }
{
    let negative = sum_sign(reader)?;
    let (_at, time) = reader.number(Sort::Time)?;
    Ok(behind_sign(negative, time))
}

/// Reads how long after an edge a step is sent: 0 where nothing is given.
#[tactic(auto, unfolding(crate::specs::reading::Sequences::optional_shift_at))]
fn optional_shift(reader: &mut Reader) -> Result<Number, Refusal>
    ensures { MayConsume optional_shift_at reader.old reader.new result }
{
    if reader.next_is_one_of(&[Sort::Plus, Sort::Minus]) {
        signed_shift(reader)
    } else {
        Ok(Number::new(0).unwrap())
    }
}

#[tactic(auto, unfolding(crate::specs::reading::Sequences::time_of_step_at))]
fn time_of_step(reader: &mut Reader) -> Result<((Place, Edge), Number), Refusal>
    ensures { Consumes time_of_step_at reader.old reader.new result }
{
    let edge = placed_edge(reader)?;
    let shift = optional_shift(reader)?;
    Ok((edge, shift))
}

#[tactic(auto, unfolding(crate::specs::reading::Sequences::send_test_at))]
fn send_test(alloc: Global, reader: &mut Reader) -> Result<Option<RawSendTest>, Refusal>
    ensures { Consumes send_test_at reader.old reader.new result }
{
    reader.take(Sort::If)?;
    let parameter = raw_name(alloc, reader)?;
    let how = compare_sign(reader)?;
    let with = literal(alloc, reader)?;
    Ok(Some(RawSendTest {
        parameter,
        how,
        with,
    }))
}

#[tactic(auto, unfolding(crate::specs::reading::Sequences::optional_test_at))]
fn optional_test(alloc: Global, reader: &mut Reader) -> Result<Option<RawSendTest>, Refusal>
    ensures { MayConsume optional_test_at reader.old reader.new result }
{
    if reader.next_is(Sort::If) {
        send_test(alloc, reader)
    } else {
        Ok(None)
    }
}

/// Reads the words of a command and its test.
#[tactic(auto, unfolding(crate::specs::reading::Sequences::sent_at))]
fn sent(alloc: Global, reader: &mut Reader) -> Result<(List<RawWord>, Option<RawSendTest>), Refusal>
    ensures { Consumes sent_at reader.old reader.new result }
{
    reader.take(Sort::OpenParenthesis)?;
    let words = words(alloc, reader)?;
    reader.take(Sort::CloseParenthesis)?;
    let test = optional_test(alloc, reader)?;
    Ok((words, test))
}

/// The step of these parts.
fn step_of_parts(
    time: ((Place, Edge), Number),
    name: RawName,
    sent: (List<RawWord>, Option<RawSendTest>),
) -> RawStep
    ensures { result ≡ step_of_parts time name sent }
{
    let ((at, edge), shift) = time;
    let (words, test) = sent;
    RawStep {
        at,
        edge,
        shift,
        name,
        words,
        test,
    }
}

/// A step.
struct OneStep;

impl Element for OneStep {
    type Part = RawStep;

    ghost part_at = { step_at };

    #[tactic(auto, unfolding(crate::specs::reading::Sequences::step_at))]
    fn part(alloc: Global, reader: &mut Reader) -> Result<RawStep, Refusal> {
        let time = time_of_step(reader)?;
        let name = raw_name(alloc, reader)?;
        let sent = sent(alloc, reader)?;
        Ok(step_of_parts(time, name, sent))
    }
}

// ---- rules

#[tactic(auto, unfolding(crate::specs::reading::Sequences::span_rule_at))]
fn span_rule(alloc: Global, reader: &mut Reader) -> Result<RawSequenceItem, Refusal>
    ensures { Consumes span_rule_at reader.old reader.new result }
{
    let at = reader.take(Sort::For)?;
    let kind = raw_name(alloc, reader)?;
    reader.take(Sort::Colon)?;
    let steps = separated::<OneStep>(alloc, reader)?;
    let rule = RawSequenceRule::Span { kind, steps };
    ended_by(reader, Sort::Semicolon, RawSequenceItem { at, rule })
}

/// Reads how long after each other commands stand at least, up to the semicolon.
#[tactic(auto, unfolding(crate::specs::reading::Sequences::spacing_least_at))]
fn spacing_least(reader: &mut Reader) -> Result<Number, Refusal>
    ensures { Consumes spacing_least_at reader.old reader.new result }
{
    reader.take(Sort::Comma)?;
    let (_at, time) = reader.number(Sort::Time)?;
    reader.take(Sort::CloseParenthesis)?;
    reader.take(Sort::Semicolon)?;
    Ok(time)
}

#[tactic(auto, unfolding(crate::specs::reading::Sequences::spacing_at))]
fn spacing(alloc: Global, reader: &mut Reader) -> Result<RawSequenceItem, Refusal>
    ensures { Consumes spacing_at reader.old reader.new result }
{
    let at = reader.take(Sort::Longer)?;
    reader.take(Sort::OpenParenthesis)?;
    let name = raw_name(alloc, reader)?;
    let least = spacing_least(reader)?;
    let rule = RawSequenceRule::Spacing { name, least };
    Ok(RawSequenceItem { at, rule })
}

/// A rule of a sequence and its semicolon.
struct OneItem;

impl Element for OneItem {
    type Part = RawSequenceItem;

    ghost part_at = { sequence_item_at };

    #[tactic(auto, unfolding(crate::specs::reading::Sequences::sequence_item_at))]
    fn part(alloc: Global, reader: &mut Reader) -> Result<RawSequenceItem, Refusal> {
        if reader.next_is(Sort::For) {
            span_rule(alloc, reader)
        } else {
            spacing(alloc, reader)
        }
    }
}

/// Reads the rules of a sequence, as many as there are.
#[tactic(auto, unfolding(crate::specs::reading::Sequences::sequence_at))]
pub fn sequence(alloc: Global, reader: &mut Reader) -> Result<List<RawSequenceItem>, Refusal>
    ensures { MayConsume sequence_at reader.old reader.new result }
{
    row::<OneItem>(alloc, reader, &[Sort::For, Sort::Longer], None)
}
