//! Sums of numbers and of resources. The time is linear in their tokens.

ghost use Rattle.std.specs.Prelude.{◌≡◌, ◌≤◌, IfOk, false};
ghost use Rattle.readers.specs.Implements.{Consumes, MayConsume};
ghost use Rattle.rule_grammar.specs.reading.Levels.{higher};
ghost use Rattle.rule_grammar.specs.reading.Sums.{behind_sign, factor_at, optional_factor_at, factor_height, scaled_at, duration_term_at, resource_term, resource_term_at, term_at, sum_of_term, with_term, sum_sign_at, signed_term_at, next_term_at, more_terms_at, sum_at, negative_term_at, unnamed_term_at, unnamed_sum_at};

use crate::raw::RawTerm;
use crate::reading::leveled::LeveledSum;
use aerie_base::{List, Number, OutOfMemory};
use aerie_text::Sort;
use model_reader::{RawName, negated, one_standing_for, raw_name};
use readers::{Limit, Reader, Refusal};
use std::alloc::Global;

/// The higher of two numbers of levels.
pub fn higher(a: usize, b: usize) -> usize
    ensures { result ≡ higher a b }
{
    if a <= b { b } else { a }
}

/// The number behind its sign.
pub fn behind_sign(negative: bool, number: Number) -> Number
    ensures { result ≡ behind_sign negative number }
{
    if negative { negated(number) } else { number }
}

// ---- terms

/// Reads `*` and what a number is multiplied by.
#[tactic(auto, unfolding(crate::specs::reading::Sums::factor_at))]
fn factor(alloc: Global, reader: &mut Reader) -> Result<Option<RawName>, Refusal>
    ensures { Consumes factor_at reader.old reader.new result }
{
    reader.take(Sort::Star)?;
    let name = raw_name(alloc, reader)?;
    Ok(Some(name))
}

/// Reads the same, where there is a `*`; it opens a level.
#[tactic(auto, unfolding(crate::specs::reading::Sums::optional_factor_at))]
fn optional_factor(
    alloc: Global,
    reader: &mut Reader,
    room: usize,
) -> Result<Option<RawName>, Refusal>
    ensures read { MayConsume (optional_factor_at room) reader.old reader.new result }
    ensures low { IfOk result (λ factor. factor_height factor ≤ room) }
{
    if !reader.next_is(Sort::Star) {
        return Ok(None);
    }
    if room == 0 {
        return Err(Refusal::TooMany(Limit::Depth));
    }
    factor(alloc, reader)
}

/// How many levels a factor has.
fn factor_height(factor: &Option<RawName>) -> usize
    ensures { result ≡ factor_height factor.now }
{
    match factor {
        Some(_) => 1,
        None => 0,
    }
}

#[tactic(auto, unfolding(crate::specs::reading::Sums::scaled_at))]
fn scaled(
    alloc: Global,
    reader: &mut Reader,
    room: usize,
    negative: bool,
) -> Result<(RawTerm, usize), Refusal>
    ensures read { Consumes (scaled_at room negative) reader.old reader.new result }
    ensures low { IfOk result (λ term. term.1 ≤ room) }
{
    let (at, number) = reader.number(Sort::Number)?;
    let resource = optional_factor(alloc, reader, room)?;
    let height = factor_height(&resource);
    let number = behind_sign(negative, number);
    let term = RawTerm {
        at,
        number,
        resource,
    };
    Ok((term, height))
}

#[tactic(auto, unfolding(crate::specs::reading::Sums::duration_term_at))]
fn duration_term(reader: &mut Reader, negative: bool) -> Result<(RawTerm, usize), Refusal>
    ensures read { Consumes (duration_term_at negative) reader.old reader.new result }
    ensures low { IfOk result (λ term. term.1 ≤ 0) }
{
    let (at, number) = reader.number(Sort::Time)?;
    let term = RawTerm {
        at,
        number: behind_sign(negative, number),
        resource: None,
    };
    Ok((term, 0))
}

/// The term that is a resource alone.
fn resource_term(negative: bool, name: RawName) -> (RawTerm, usize)
    ensures { result ≡ resource_term negative name }
{
    let number = Number::new(if negative { -1 } else { 1 }).unwrap();
    let term = RawTerm {
        at: name.at,
        number,
        resource: Some(name),
    };
    (term, 0)
}

#[tactic(auto, unfolding(crate::specs::reading::Sums::resource_term_at))]
fn read_resource_term(
    alloc: Global,
    reader: &mut Reader,
    negative: bool,
) -> Result<(RawTerm, usize), Refusal>
    ensures read { Consumes (resource_term_at negative) reader.old reader.new result }
    ensures low { IfOk result (λ term. term.1 ≤ 0) }
{
    let name = raw_name(alloc, reader)?;
    Ok(resource_term(negative, name))
}

/// Reads a term behind its sign.
#[tactic(auto, unfolding(crate::specs::reading::Sums::term_at))]
fn term(
    alloc: Global,
    reader: &mut Reader,
    room: usize,
    negative: bool,
) -> Result<(RawTerm, usize), Refusal>
    ensures read { Consumes (term_at room negative) reader.old reader.new result }
    ensures low { IfOk result (λ term. term.1 ≤ room) }
{
    if reader.next_is(Sort::Number) {
        scaled(alloc, reader, room, negative)
    } else if reader.next_is(Sort::Time) {
        duration_term(reader, negative)
    } else {
        read_resource_term(alloc, reader, negative)
    }
}

// ---- sums

/// The sum of one term.
pub fn sum_of_term(alloc: Global, term: (RawTerm, usize)) -> Result<LeveledSum, OutOfMemory>
    ensures { IfOk result (λ sum. sum ≡ sum_of_term term) }
{
    let mut terms = List::new(alloc);
    terms.push(term.0)?;
    Ok(LeveledSum {
        terms,
        height: term.1,
    })
}

/// The sum of a resource alone.
pub fn sum_of_resource(alloc: Global, name: RawName) -> Result<LeveledSum, OutOfMemory>
    ensures { IfOk result (λ sum. sum ≡ sum_of_term (resource_term false name)) }
{
    sum_of_term(alloc, resource_term(false, name))
}

/// The sum with one term more.
fn with_term(sum: LeveledSum, term: (RawTerm, usize)) -> Result<LeveledSum, OutOfMemory>
    ensures { IfOk result (λ longer. longer ≡ with_term sum term) }
{
    let mut terms = sum.terms;
    let height = higher(sum.height, term.1);
    terms.push(term.0)?;
    Ok(LeveledSum { terms, height })
}

/// Reads the sign before a term, and says whether it is a minus.
#[tactic(auto, unfolding(crate::specs::reading::Sums::sum_sign_at))]
pub fn sum_sign(reader: &mut Reader) -> Result<bool, Refusal>
    ensures { Consumes sum_sign_at reader.old reader.new result }
{
    one_standing_for(reader, &[(Sort::Plus, false), (Sort::Minus, true)])
}

#[tactic(auto, unfolding(crate::specs::reading::Sums::signed_term_at))]
fn signed_term(alloc: Global, reader: &mut Reader, room: usize) -> Result<(RawTerm, usize), Refusal>
    ensures read { Consumes (signed_term_at room) reader.old reader.new result }
    ensures low { IfOk result (λ term. term.1 ≤ room) }
{
    let negative = sum_sign(reader)?;
    term(alloc, reader, room, negative)
}

/// Reads one term more with the sign before it.
#[tactic(auto, unfolding(crate::specs::reading::Sums::next_term_at))]
pub fn next_term(
    alloc: Global,
    reader: &mut Reader,
    room: usize,
    so_far: LeveledSum,
) -> Result<LeveledSum, Refusal>
    requires low { so_far.height ≤ room }
    ensures read { Consumes (next_term_at room so_far) reader.old reader.new result }
    ensures low { IfOk result (λ sum. sum.height ≤ room) }
{
    let term = signed_term(alloc, reader, room)?;
    Ok(with_term(so_far, term)?)
}

/// Reads the further terms of a sum.
#[tactic(auto, unfolding(crate::specs::reading::Sums::more_terms_at))]
pub fn more_terms(
    alloc: Global,
    reader: &mut Reader,
    room: usize,
    so_far: LeveledSum,
) -> Result<LeveledSum, Refusal>
    requires low { so_far.height ≤ room }
    ensures read { MayConsume (more_terms_at room so_far) reader.old reader.new result }
    ensures low { IfOk result (λ sum. sum.height ≤ room) }
{
    let mut sum = so_far;
    while reader.next_is_one_of(&[Sort::Plus, Sort::Minus]) {
        sum = next_term(alloc, reader, room, sum)?;
    }
    Ok(sum)
}

/// Reads a sum, where so many levels may be opened.
#[tactic(auto, unfolding(crate::specs::reading::Sums::sum_at))]
pub fn sum(alloc: Global, reader: &mut Reader, room: usize) -> Result<LeveledSum, Refusal>
    ensures read { Consumes (sum_at room) reader.old reader.new result }
    ensures low { IfOk result (λ sum. sum.height ≤ room) }
{
    let negative = reader.has(Sort::Minus);
    let first = term(alloc, reader, room, negative)?;
    let so_far = sum_of_term(alloc, first)?;
    more_terms(alloc, reader, room, so_far)
}

// ---- sums that begin with no name

#[tactic(auto, unfolding(crate::specs::reading::Sums::negative_term_at))]
fn negative_term(
    alloc: Global,
    reader: &mut Reader,
    room: usize,
) -> Result<(RawTerm, usize), Refusal>
    ensures read { Consumes (negative_term_at room) reader.old reader.new result }
    ensures low { IfOk result (λ term. term.1 ≤ room) }
{
    reader.take(Sort::Minus)?;
    term(alloc, reader, room, true)
}

#[tactic(auto, unfolding(crate::specs::reading::Sums::unnamed_term_at))]
fn unnamed_term(
    alloc: Global,
    reader: &mut Reader,
    room: usize,
) -> Result<(RawTerm, usize), Refusal>
    ensures read { Consumes (unnamed_term_at room) reader.old reader.new result }
    ensures low { IfOk result (λ term. term.1 ≤ room) }
{
    if reader.next_is(Sort::Minus) {
        negative_term(alloc, reader, room)
    } else if reader.next_is(Sort::Number) {
        scaled(alloc, reader, room, false)
    } else {
        duration_term(reader, false)
    }
}

/// Reads a sum that begins with no name.
#[tactic(auto, unfolding(crate::specs::reading::Sums::unnamed_sum_at))]
pub fn unnamed_sum(alloc: Global, reader: &mut Reader, room: usize) -> Result<LeveledSum, Refusal>
    ensures read { Consumes (unnamed_sum_at room) reader.old reader.new result }
    ensures low { IfOk result (λ sum. sum.height ≤ room) }
{
    let first = unnamed_term(alloc, reader, room)?;
    let so_far = sum_of_term(alloc, first)?;
    more_terms(alloc, reader, room, so_far)
}
