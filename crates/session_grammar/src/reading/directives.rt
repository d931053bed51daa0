//! When directives start, and what they give.

ghost use Rattle.std.specs.Prelude.{◌≡◌, IfOk};
ghost use Rattle.model_reader.specs.reading.Literals.{begins_amount};
ghost use Rattle.readers.specs.Implements.{Consumes};
ghost use Rattle.readers.specs.Parsed.{next_fits};
ghost use Rattle.session_grammar.specs.reading.Directives.{id_at, duration_at, edge_word_at, edge_at, anchored_at, unanchored_at, instant_text_at, when_at, with_sign, signed_amount_at, truth_at, variant_word, variant_at, length_of_time, value_at, argument_at, given_at};

use crate::raw::{RawGiven, RawStart, RawWhen};
use aerie_base::{
    Anchor, Edge, Name, Number, OutOfMemory, RawArgument, RawValue, Text, Time, When,
};
use aerie_text::Sort;
use model_reader::{amount, negated};
use readers::{Element, Reader, Refusal, parenthesized};
use std::alloc::Global;

/// The greatest id.
const GREATEST_ID: u64 = 4_294_967_295;

/// The longest time, in microseconds.
const LONGEST_TIME: u64 = 1_000_000_000_000_000;

/// Reads the id of a directive.
#[tactic(auto, unfolding(crate::specs::reading::Directives::id_at))]
pub fn id(reader: &mut Reader) -> Result<u32, Refusal>
    ensures { Consumes id_at reader.old reader.new result }
{
    let (_at, id) = reader.number_within(Sort::Number, 0, GREATEST_ID)?;
    Ok(id as u32)
}

#[tactic(auto, unfolding(crate::specs::reading::Directives::duration_at))]
pub fn duration(reader: &mut Reader) -> Result<Time, Refusal>
    ensures { Consumes duration_at reader.old reader.new result }
{
    let (_at, time) = reader.number(Sort::Time)?;
    Ok(length_of_time(time))
}

/// So many microseconds, at most the longest time.
fn length_of_time(count: Number) -> Time
    ensures { result ≡ length_of_time count }
{
    let micros = count.get().unsigned_abs();
    let most = if micros <= LONGEST_TIME {
        micros
    } else {
        LONGEST_TIME
    };
    Time::new(most as i64).unwrap()
}

#[tactic(auto, unfolding(crate::specs::reading::Directives::edge_word_at))]
fn edge_word(reader: &mut Reader, sort: Sort, edge: Edge) -> Result<Edge, Refusal>
    ensures { Consumes (edge_word_at sort edge) reader.old reader.new result }
{
    reader.take(sort)?;
    Ok(edge)
}

#[tactic(auto, unfolding(crate::specs::reading::Directives::edge_at))]
fn edge(reader: &mut Reader) -> Result<Edge, Refusal>
    ensures { Consumes edge_at reader.old reader.new result }
{
    if reader.next_is(Sort::Start) {
        edge_word(reader, Sort::Start, Edge::Start)
    } else {
        edge_word(reader, Sort::End, Edge::End)
    }
}

#[tactic(auto, unfolding(crate::specs::reading::Directives::anchored_at))]
fn anchored(reader: &mut Reader) -> Result<RawWhen, Refusal>
    ensures { Consumes anchored_at reader.old reader.new result }
{
    let edge = edge(reader)?;
    reader.take(Sort::Of)?;
    let to = id(reader)?;
    reader.take(Sort::Plus)?;
    let start = duration(reader)?;
    let anchor = Some(Anchor { to, edge });
    Ok(RawWhen::Planned(When { start, anchor }))
}

#[tactic(auto, unfolding(crate::specs::reading::Directives::unanchored_at))]
fn unanchored(reader: &mut Reader) -> Result<RawWhen, Refusal>
    ensures { Consumes unanchored_at reader.old reader.new result }
{
    let start = duration(reader)?;
    let anchor = None;
    Ok(RawWhen::Planned(When { start, anchor }))
}

#[tactic(auto, unfolding(crate::specs::reading::Directives::instant_text_at))]
fn instant(alloc: Global, reader: &mut Reader) -> Result<RawWhen, Refusal>
    ensures { Consumes instant_text_at reader.old reader.new result }
{
    let (at, text) = reader.word(Sort::Quoted)?;
    let text = Text::new(alloc, text)?;
    Ok(RawWhen::Instant(RawStart { at, text }))
}

/// Reads when a directive starts.
#[tactic(auto, unfolding(crate::specs::reading::Directives::when_at))]
pub fn when(alloc: Global, reader: &mut Reader) -> Result<RawWhen, Refusal>
    ensures { Consumes when_at reader.old reader.new result }
{
    if reader.next_is_one_of(&[Sort::Start, Sort::End]) {
        anchored(reader)
    } else if reader.next_is(Sort::Quoted) {
        instant(alloc, reader)
    } else {
        unanchored(reader)
    }
}

/// A number with its sign.
fn with_sign(minus: bool, number: Number) -> Number
    ensures { result ≡ with_sign minus number }
{
    if minus { negated(number) } else { number }
}

#[tactic(auto, unfolding(crate::specs::reading::Directives::signed_amount_at))]
fn signed_amount(reader: &mut Reader) -> Result<RawValue, Refusal>
    ensures { Consumes signed_amount_at reader.old reader.new result }
{
    let minus = reader.has(Sort::Minus);
    let (_at, number) = amount(reader)?;
    Ok(RawValue::Int(with_sign(minus, number)))
}

#[tactic(auto, unfolding(crate::specs::reading::Directives::truth_at))]
fn truth(reader: &mut Reader, sort: Sort, truth: bool) -> Result<RawValue, Refusal>
    ensures { Consumes (truth_at sort truth) reader.old reader.new result }
{
    reader.take(sort)?;
    Ok(RawValue::Truth(truth))
}

/// A variant as it is written.
fn variant_word(alloc: Global, kind: &Name, variant: &Name) -> Result<Text, OutOfMemory>
    ensures { IfOk result (λ word. word ≡ variant_word kind.now variant.now) }
{
    let mut word = String::from_str(alloc, kind.as_str())?;
    word.push_str(".")?;
    word.push_str(variant.as_str())?;
    Text::new(alloc, word.as_str())
}

#[tactic(auto, unfolding(crate::specs::reading::Directives::variant_at))]
fn variant(alloc: Global, reader: &mut Reader) -> Result<RawValue, Refusal>
    ensures { Consumes variant_at reader.old reader.new result }
{
    let (_at, kind) = reader.name(alloc)?;
    reader.take(Sort::Dot)?;
    let (_at, variant) = reader.name(alloc)?;
    let word = variant_word(alloc, &kind, &variant)?;
    Ok(RawValue::Word(word))
}

/// Whether the next token begins a number or a length of time, or is the sign of one.
pub fn begins_amount(reader: &Reader) -> bool
    ensures { result ≡ next_fits begins_amount reader.now }
{
    reader.next_is_one_of(&[Sort::Minus, Sort::Number, Sort::Time])
}

/// Reads a literal.
#[tactic(auto, unfolding(crate::specs::reading::Directives::value_at))]
fn value(alloc: Global, reader: &mut Reader) -> Result<RawValue, Refusal>
    ensures { Consumes value_at reader.old reader.new result }
{
    if begins_amount(reader) {
        signed_amount(reader)
    } else if reader.next_is(Sort::True) {
        truth(reader, Sort::True, true)
    } else if reader.next_is(Sort::False) {
        truth(reader, Sort::False, false)
    } else {
        variant(alloc, reader)
    }
}

/// Reads an argument.
#[tactic(auto, unfolding(crate::specs::reading::Directives::argument_at))]
pub fn argument(alloc: Global, reader: &mut Reader) -> Result<RawArgument, Refusal>
    ensures { Consumes argument_at reader.old reader.new result }
{
    let (_at, name) = reader.name(alloc)?;
    reader.take(Sort::Assign)?;
    let value = value(alloc, reader)?;
    Ok(RawArgument { name, value })
}

/// An argument: the name of a parameter and a literal.
struct GivenArgument;

impl Element for GivenArgument {
    type Part = RawArgument;

    ghost part_at = { argument_at };

    fn part(alloc: Global, reader: &mut Reader) -> Result<RawArgument, Refusal> {
        argument(alloc, reader)
    }
}

/// Reads the name of an activity type and its arguments. The time is linear in their tokens.
#[tactic(auto, unfolding(crate::specs::reading::Directives::given_at))]
pub fn given(alloc: Global, reader: &mut Reader) -> Result<RawGiven, Refusal>
    ensures { Consumes given_at reader.old reader.new result }
{
    let (_at, kind) = reader.name(alloc)?;
    let arguments = parenthesized::<GivenArgument>(alloc, reader, Sort::Name, None)?;
    Ok(RawGiven { kind, arguments })
}
