//! Atoms that test resources: a truth, `==` and `!=` with a value, and comparisons of sums. `room` levels may be opened.

ghost use Rattle.std.specs.Prelude.{◌≡◌, ◌<◌, ◌≤◌, ◌+◌, IfOk};
ghost use Rattle.readers.specs.Implements.{Consumes, MayConsume};
ghost use Rattle.readers.specs.Parsed.{next_fits};
ghost use Rattle.rule_grammar.specs.reading.Tested.{comparison_of, is_compare_sign, is_same_sign, is_order_sign, begins_named_tail, order_sign_at, compare_sign_at, right_side_at, comparison_at, unnamed_atom_at, longer_left_at, ordered_at, same_sign_at, same_window, equal_window, same_truth_at, same_variant_at, equal_named_at, named_operand_at, unnamed_operand_at, same_operand_at, same_at, named_tail_at, truth_window, named_atom_at};

use crate::raw::{RawTested, RawWindow};
use crate::reading::leveled::{LeveledSum, LeveledWindow};
use crate::reading::sums::{higher, more_terms, next_term, sum, sum_of_resource, unnamed_sum};
use aerie_base::{Comparison, OutOfMemory};
use aerie_text::Sort;
use model_reader::{RawName, one_standing_for, raw_name};
use readers::{Limit, Reader, Refusal};
use std::alloc::Global;

// ---- comparisons of sums

/// The comparison of two sums.
fn comparison_of(left: LeveledSum, how: Comparison, right: LeveledSum) -> LeveledWindow
    requires left { left.height < 64 }
    requires right { right.height < 64 }
    ensures { result ≡ comparison_of left how right }
{
    let height = higher(left.height, right.height) + 1;
    LeveledWindow {
        window: RawWindow::Compare {
            left: left.terms,
            how,
            right: right.terms,
        },
        height,
    }
}

/// Reads `<`, `<=`, `>` or `>=`.
#[tactic(auto, unfolding(crate::specs::reading::Tested::order_sign_at))]
fn order_sign(reader: &mut Reader) -> Result<Comparison, Refusal>
    ensures { Consumes order_sign_at reader.old reader.new result }
{
    let signs = [
        (Sort::Less, Comparison::Less),
        (Sort::LessEqual, Comparison::AtMost),
        (Sort::Greater, Comparison::More),
        (Sort::GreaterEqual, Comparison::AtLeast),
    ];
    one_standing_for(reader, &signs)
}

/// Reads the sign of a comparison.
#[tactic(auto, unfolding(crate::specs::reading::Tested::compare_sign_at))]
pub fn compare_sign(reader: &mut Reader) -> Result<Comparison, Refusal>
    ensures { Consumes compare_sign_at reader.old reader.new result }
{
    let signs = [
        (Sort::DoubleEqual, Comparison::Equal),
        (Sort::NotEqual, Comparison::Unequal),
        (Sort::Less, Comparison::Less),
        (Sort::LessEqual, Comparison::AtMost),
        (Sort::Greater, Comparison::More),
        (Sort::GreaterEqual, Comparison::AtLeast),
    ];
    one_standing_for(reader, &signs)
}

/// Whether the next token compares two sums.
fn is_at_compare_sign(reader: &Reader) -> bool
    ensures { result ≡ next_fits is_compare_sign reader.now }
{
    reader.next_is_one_of(&[
        Sort::DoubleEqual,
        Sort::NotEqual,
        Sort::Less,
        Sort::LessEqual,
        Sort::Greater,
        Sort::GreaterEqual,
    ])
}

/// Reads the sign and the right side of a comparison.
#[tactic(auto, unfolding(crate::specs::reading::Tested::right_side_at))]
fn right_side(
    alloc: Global,
    reader: &mut Reader,
    room: usize,
    left: LeveledSum,
) -> Result<LeveledWindow, Refusal>
    requires levels { room ≤ 64 }
    requires left { left.height < room }
    ensures read { Consumes (right_side_at room left) reader.old reader.new result }
    ensures low { IfOk result (λ whole. whole.height ≤ room) }
{
    let how = compare_sign(reader)?;
    let right = sum(alloc, reader, room - 1)?;
    Ok(comparison_of(left, how, right))
}

/// The same; the sign opens one level more than there are on the left side.
#[tactic(auto, unfolding(crate::specs::reading::Tested::comparison_at))]
fn comparison(
    alloc: Global,
    reader: &mut Reader,
    room: usize,
    left: LeveledSum,
) -> Result<LeveledWindow, Refusal>
    requires levels { room ≤ 64 }
    requires left { left.height ≤ room }
    ensures read { Consumes (comparison_at room left) reader.old reader.new result }
    ensures low { IfOk result (λ whole. whole.height ≤ room) }
{
    if !is_at_compare_sign(reader) {
        return Err(Refusal::Syntax);
    }
    if room <= left.height {
        return Err(Refusal::TooMany(Limit::Depth));
    }
    right_side(alloc, reader, room, left)
}

/// Reads an atom that begins with no name.
#[tactic(auto, unfolding(crate::specs::reading::Tested::unnamed_atom_at))]
pub fn unnamed_atom(
    alloc: Global,
    reader: &mut Reader,
    room: usize,
) -> Result<LeveledWindow, Refusal>
    requires levels { room ≤ 64 }
    ensures read { Consumes (unnamed_atom_at room) reader.old reader.new result }
    ensures low { IfOk result (λ whole. whole.height ≤ room) }
{
    let left = unnamed_sum(alloc, reader, room)?;
    comparison(alloc, reader, room, left)
}

// ---- behind a name

/// Reads further terms of the left side, and the right side.
#[tactic(auto, unfolding(crate::specs::reading::Tested::longer_left_at))]
fn longer_left(
    alloc: Global,
    reader: &mut Reader,
    room: usize,
    name: RawName,
) -> Result<LeveledWindow, Refusal>
    requires levels { room ≤ 64 }
    ensures read { Consumes (longer_left_at room name) reader.old reader.new result }
    ensures low { IfOk result (λ whole. whole.height ≤ room) }
{
    let first = sum_of_resource(alloc, name)?;
    let two = next_term(alloc, reader, room, first)?;
    let left = more_terms(alloc, reader, room, two)?;
    comparison(alloc, reader, room, left)
}

/// Reads the sign of an order and the right side.
#[tactic(auto, unfolding(crate::specs::reading::Tested::ordered_at))]
fn order(
    alloc: Global,
    reader: &mut Reader,
    room: usize,
    name: RawName,
) -> Result<LeveledWindow, Refusal>
    requires levels { room ≤ 64 }
    requires some { 0 < room }
    ensures read { Consumes (ordered_at room name) reader.old reader.new result }
    ensures low { IfOk result (λ whole. whole.height ≤ room) }
{
    let how = order_sign(reader)?;
    let right = sum(alloc, reader, room - 1)?;
    let left = sum_of_resource(alloc, name)?;
    Ok(comparison_of(left, how, right))
}

/// Reads `==` or `!=`, and says whether it is `==`.
#[tactic(auto, unfolding(crate::specs::reading::Tested::same_sign_at))]
fn same_sign(reader: &mut Reader) -> Result<bool, Refusal>
    ensures { Consumes same_sign_at reader.old reader.new result }
{
    one_standing_for(
        reader,
        &[(Sort::DoubleEqual, true), (Sort::NotEqual, false)],
    )
}

/// The window in which a resource has this value, or does not have it.
fn same_window(name: RawName, equal: bool, with: RawTested) -> LeveledWindow
    ensures { result ≡ same_window name equal with }
{
    LeveledWindow {
        window: RawWindow::Same {
            resource: name,
            with,
            equal,
        },
        height: 1,
    }
}

/// The window in which a resource equals a sum, or does not.
fn equal_window(
    alloc: Global,
    name: RawName,
    equal: bool,
    right: LeveledSum,
) -> Result<LeveledWindow, OutOfMemory>
    requires { right.height < 64 }
    ensures { IfOk result (λ whole. whole ≡ equal_window name equal right) }
{
    let how = if equal {
        Comparison::Equal
    } else {
        Comparison::Unequal
    };
    let left = sum_of_resource(alloc, name)?;
    Ok(comparison_of(left, how, right))
}

#[tactic(auto, unfolding(crate::specs::reading::Tested::same_truth_at))]
fn same_truth(
    reader: &mut Reader,
    truth: bool,
    name: RawName,
    equal: bool,
) -> Result<LeveledWindow, Refusal>
    ensures read { Consumes (same_truth_at truth name equal) reader.old reader.new result }
    ensures flat { IfOk result (λ whole. whole.height ≡ 1) }
{
    reader.take(if truth { Sort::True } else { Sort::False })?;
    Ok(same_window(name, equal, RawTested::Truth(truth)))
}

/// Reads a dot and the name of a variant, behind the name of its enumeration.
#[tactic(auto, unfolding(crate::specs::reading::Tested::same_variant_at))]
fn same_variant(
    alloc: Global,
    reader: &mut Reader,
    name: RawName,
    equal: bool,
    kind: RawName,
) -> Result<LeveledWindow, Refusal>
    ensures read { Consumes (same_variant_at name equal kind) reader.old reader.new result }
    ensures flat { IfOk result (λ whole. whole.height ≡ 1) }
{
    reader.take(Sort::Dot)?;
    let variant = raw_name(alloc, reader)?;
    Ok(same_window(name, equal, RawTested::Variant { kind, variant }))
}

/// Reads the further terms of the right side, behind the name with which it begins.
#[tactic(auto, unfolding(crate::specs::reading::Tested::equal_named_at))]
fn equal_named(
    alloc: Global,
    reader: &mut Reader,
    room: usize,
    name: RawName,
    equal: bool,
    first: RawName,
) -> Result<LeveledWindow, Refusal>
    requires levels { room < 64 }
    ensures read { MayConsume (equal_named_at room name equal first) reader.old reader.new result }
    ensures low { IfOk result (λ whole. whole.height ≤ room + 1) }
{
    let so_far = sum_of_resource(alloc, first)?;
    let right = more_terms(alloc, reader, room, so_far)?;
    Ok(equal_window(alloc, name, equal, right)?)
}

/// Reads a variant, or a sum that begins with a name.
#[tactic(auto, unfolding(crate::specs::reading::Tested::named_operand_at))]
fn named_operand(
    alloc: Global,
    reader: &mut Reader,
    room: usize,
    name: RawName,
    equal: bool,
) -> Result<LeveledWindow, Refusal>
    requires levels { room < 64 }
    ensures read { Consumes (named_operand_at room name equal) reader.old reader.new result }
    ensures low { IfOk result (λ whole. whole.height ≤ room + 1) }
{
    let first = raw_name(alloc, reader)?;
    if reader.next_is(Sort::Dot) {
        same_variant(alloc, reader, name, equal, first)
    } else {
        equal_named(alloc, reader, room, name, equal, first)
    }
}

/// Reads a sum that begins with no name.
#[tactic(auto, unfolding(crate::specs::reading::Tested::unnamed_operand_at))]
fn unnamed_operand(
    alloc: Global,
    reader: &mut Reader,
    room: usize,
    name: RawName,
    equal: bool,
) -> Result<LeveledWindow, Refusal>
    requires levels { room < 64 }
    ensures read { Consumes (unnamed_operand_at room name equal) reader.old reader.new result }
    ensures low { IfOk result (λ whole. whole.height ≤ room + 1) }
{
    let right = unnamed_sum(alloc, reader, room)?;
    Ok(equal_window(alloc, name, equal, right)?)
}

/// Reads what stands behind a name and `==` or `!=`.
#[tactic(auto, unfolding(crate::specs::reading::Tested::same_operand_at))]
fn same_operand(
    alloc: Global,
    reader: &mut Reader,
    room: usize,
    name: RawName,
    equal: bool,
) -> Result<LeveledWindow, Refusal>
    requires levels { room < 64 }
    ensures read { Consumes (same_operand_at room name equal) reader.old reader.new result }
    ensures low { IfOk result (λ whole. whole.height ≤ room + 1) }
{
    if reader.next_is(Sort::True) {
        same_truth(reader, true, name, equal)
    } else if reader.next_is(Sort::False) {
        same_truth(reader, false, name, equal)
    } else if reader.next_is(Sort::Name) {
        named_operand(alloc, reader, room, name, equal)
    } else {
        unnamed_operand(alloc, reader, room, name, equal)
    }
}

/// Reads `==` or `!=` and its operand.
#[tactic(auto, unfolding(crate::specs::reading::Tested::same_at))]
fn same(
    alloc: Global,
    reader: &mut Reader,
    room: usize,
    name: RawName,
) -> Result<LeveledWindow, Refusal>
    requires levels { room ≤ 64 }
    requires some { 0 < room }
    ensures read { Consumes (same_at room name) reader.old reader.new result }
    ensures low { IfOk result (λ whole. whole.height ≤ room) }
{
    let equal = same_sign(reader)?;
    same_operand(alloc, reader, room - 1, name, equal)
}

/// Whether the next token is `==` or `!=`.
fn is_at_same_sign(reader: &Reader) -> bool
    ensures { result ≡ next_fits is_same_sign reader.now }
{
    reader.next_is_one_of(&[Sort::DoubleEqual, Sort::NotEqual])
}

/// Whether the next token is `<`, `<=`, `>` or `>=`.
fn is_at_order_sign(reader: &Reader) -> bool
    ensures { result ≡ next_fits is_order_sign reader.now }
{
    reader.next_is_one_of(&[
        Sort::Less,
        Sort::LessEqual,
        Sort::Greater,
        Sort::GreaterEqual,
    ])
}

/// Reads a test by a sign that opens a level, where none of both is left.
#[tactic(auto, unfolding(crate::specs::reading::Tested::named_tail_at))]
fn named_tail(
    alloc: Global,
    reader: &mut Reader,
    room: usize,
    name: RawName,
) -> Result<LeveledWindow, Refusal>
    requires levels { room ≤ 64 }
    ensures read { Consumes (named_tail_at room name) reader.old reader.new result }
    ensures low { IfOk result (λ whole. whole.height ≤ room) }
{
    if is_at_same_sign(reader) {
        if room == 0 {
            return Err(Refusal::TooMany(Limit::Depth));
        }
        same(alloc, reader, room, name)
    } else if is_at_order_sign(reader) {
        if room == 0 {
            return Err(Refusal::TooMany(Limit::Depth));
        }
        order(alloc, reader, room, name)
    } else {
        longer_left(alloc, reader, room, name)
    }
}

/// Whether the next token goes on behind the name with which an atom begins.
fn is_at_named_tail(reader: &Reader) -> bool
    ensures { result ≡ next_fits begins_named_tail reader.now }
{
    reader.next_is_one_of(&[
        Sort::DoubleEqual,
        Sort::NotEqual,
        Sort::Less,
        Sort::LessEqual,
        Sort::Greater,
        Sort::GreaterEqual,
        Sort::Plus,
        Sort::Minus,
    ])
}

/// The window in which a truth resource is true.
fn truth_window(name: RawName) -> LeveledWindow
    ensures { result ≡ truth_window name }
{
    LeveledWindow {
        window: RawWindow::Truth(name),
        height: 0,
    }
}

/// Reads an atom that begins with a name.
#[tactic(auto, unfolding(crate::specs::reading::Tested::named_atom_at))]
pub fn named_atom(alloc: Global, reader: &mut Reader, room: usize) -> Result<LeveledWindow, Refusal>
    requires levels { room ≤ 64 }
    ensures read { Consumes (named_atom_at room) reader.old reader.new result }
    ensures low { IfOk result (λ whole. whole.height ≤ room) }
{
    let name = raw_name(alloc, reader)?;
    if is_at_named_tail(reader) {
        named_tail(alloc, reader, room, name)
    } else {
        Ok(truth_window(name))
    }
}
