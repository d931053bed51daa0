//! Windows, the limit of their depth with them. The time is linear in their tokens.

ghost use Rattle.std.specs.Prelude.{◌≡◌, ◌<◌, ◌≤◌, IfOk};
ghost use Rattle.readers.specs.Implements.{Consumes};
ghost use Rattle.rule_grammar.specs.reading.Windows.{truth_at, during_span_at, during_at, signed_duration_at, in_parentheses, outside, shifted, lasting, parentheses_at, not_at, bounds_at, shifted_at, shift_at, least_at, lasting_at, longer_at, simple_atom_at, atom_at, word_of_joining, operand_of_joining, joined_windows, joined_levels, operand_at, operated_at, operation_at, conjunction_at, disjunction_at, inner_readers, window_at};

use crate::raw::RawWindow;
use crate::reading::leveled::{Joining, LeveledWindow, WindowPart};
use crate::reading::sums::{behind_sign, higher};
use crate::reading::tested::{named_atom, unnamed_atom};
use aerie_base::{Boxed, Number, OutOfMemory};
use aerie_text::Sort;
use model_reader::raw_name;
use readers::{Limit, Reader, Refusal, ended_by};
use std::alloc::Global;

/// How many levels a window may have.
const MOST_LEVELS: usize = 64;

// ---- windows of others, with their levels

/// The window in parentheses.
fn in_parentheses(inner: LeveledWindow) -> LeveledWindow
    requires { inner.height < 64 }
    ensures { result ≡ in_parentheses inner }
{
    LeveledWindow {
        window: inner.window,
        height: inner.height + 1,
    }
}

/// The times outside the window.
fn outside(alloc: Global, inner: LeveledWindow) -> Result<LeveledWindow, OutOfMemory>
    requires { inner.height < 64 }
    ensures { IfOk result (λ whole. whole ≡ outside inner) }
{
    let height = inner.height + 1;
    let window = RawWindow::Not(Boxed::new(alloc, inner.window)?);
    Ok(LeveledWindow { window, height })
}

/// The window with its starts and ends moved.
fn shifted(
    alloc: Global,
    inner: LeveledWindow,
    by: (Number, Number),
) -> Result<LeveledWindow, OutOfMemory>
    requires { inner.height < 64 }
    ensures { IfOk result (λ whole. whole ≡ shifted inner by) }
{
    let height = inner.height + 1;
    let of = Boxed::new(alloc, inner.window)?;
    let window = RawWindow::Shift {
        of,
        start: by.0,
        end: by.1,
    };
    Ok(LeveledWindow { window, height })
}

/// The intervals of the window that are long enough.
fn lasting(alloc: Global, inner: LeveledWindow, least: Number) -> Result<LeveledWindow, OutOfMemory>
    requires { inner.height < 64 }
    ensures { IfOk result (λ whole. whole ≡ lasting inner least) }
{
    let height = inner.height + 1;
    let of = Boxed::new(alloc, inner.window)?;
    let window = RawWindow::Longer { of, least };
    Ok(LeveledWindow { window, height })
}

/// The operator between two windows.
fn joined_windows(
    alloc: Global,
    joining: Joining,
    left: RawWindow,
    right: RawWindow,
) -> Result<RawWindow, OutOfMemory>
    ensures { IfOk result (λ whole. whole ≡ joined_windows joining left right) }
{
    let left = Boxed::new(alloc, left)?;
    let right = Boxed::new(alloc, right)?;
    match joining {
        Joining::And => Ok(RawWindow::And(left, right)),
        Joining::Or => Ok(RawWindow::Or(left, right)),
    }
}

/// The same with its levels.
fn joined_levels(
    alloc: Global,
    joining: Joining,
    left: LeveledWindow,
    right: LeveledWindow,
) -> Result<LeveledWindow, OutOfMemory>
    requires left { left.height < 64 }
    requires right { right.height < 64 }
    ensures { IfOk result (λ whole. whole ≡ joined_levels joining left right) }
{
    let height = higher(left.height, right.height) + 1;
    let window = joined_windows(alloc, joining, left.window, right.window)?;
    Ok(LeveledWindow { window, height })
}

impl Joining {
    /// The word of the operator.
    fn word(self) -> Sort
        ensures { result ≡ word_of_joining self }
    {
        match self {
            Joining::And => Sort::And,
            Joining::Or => Sort::Or,
        }
    }

    /// What stands on its right side.
    fn operand(self) -> WindowPart
        ensures { result ≡ operand_of_joining self }
    {
        match self {
            Joining::And => WindowPart::Atom,
            Joining::Or => WindowPart::Conjunction,
        }
    }
}

// ---- atoms without operators

#[tactic(auto, unfolding(crate::specs::reading::Windows::truth_at))]
fn truth(reader: &mut Reader, truth: bool) -> Result<LeveledWindow, Refusal>
    ensures read { Consumes (truth_at truth) reader.old reader.new result }
    ensures flat { IfOk result (λ whole. whole.height ≡ 0) }
{
    reader.take(if truth { Sort::True } else { Sort::False })?;
    let window = RawWindow::Literal(truth);
    Ok(LeveledWindow { window, height: 0 })
}

/// Reads the activity type behind `during`, in parentheses.
#[tactic(auto, unfolding(crate::specs::reading::Windows::during_span_at))]
fn during_span(alloc: Global, reader: &mut Reader) -> Result<LeveledWindow, Refusal>
    ensures read { Consumes during_span_at reader.old reader.new result }
    ensures flat { IfOk result (λ whole. whole.height ≡ 1) }
{
    reader.take(Sort::OpenParenthesis)?;
    let name = raw_name(alloc, reader)?;
    reader.take(Sort::CloseParenthesis)?;
    let window = RawWindow::During(name);
    Ok(LeveledWindow { window, height: 1 })
}

/// Reads `during` of an activity type.
#[tactic(auto, unfolding(crate::specs::reading::Windows::during_at, crate::specs::reading::Levels::parenthesis_opening))]
fn during(alloc: Global, reader: &mut Reader, room: usize) -> Result<LeveledWindow, Refusal>
    ensures read { Consumes (during_at room) reader.old reader.new result }
    ensures low { IfOk result (λ whole. whole.height ≤ room) }
{
    reader.take(Sort::During)?;
    if !reader.next_is(Sort::OpenParenthesis) {
        return Err(Refusal::Syntax);
    }
    if room == 0 {
        return Err(Refusal::TooMany(Limit::Depth));
    }
    during_span(alloc, reader)
}

/// Reads a length of time with its sign.
#[tactic(auto, unfolding(crate::specs::reading::Windows::signed_duration_at))]
pub fn signed_duration(reader: &mut Reader) -> Result<Number, Refusal>
    ensures { Consumes signed_duration_at reader.old reader.new result }
{
    let negative = reader.has(Sort::Minus);
    let (_at, time) = reader.number(Sort::Time)?;
    Ok(behind_sign(negative, time))
}

/// Reads by how much starts and ends are moved, and the parenthesis behind it.
#[tactic(auto, unfolding(crate::specs::reading::Windows::bounds_at))]
fn bounds(reader: &mut Reader) -> Result<(Number, Number), Refusal>
    ensures { Consumes bounds_at reader.old reader.new result }
{
    reader.take(Sort::Comma)?;
    let start = signed_duration(reader)?;
    reader.take(Sort::Comma)?;
    let end = signed_duration(reader)?;
    reader.take(Sort::CloseParenthesis)?;
    Ok((start, end))
}

/// Reads the least length of an interval, and the parenthesis behind it.
#[tactic(auto, unfolding(crate::specs::reading::Windows::least_at))]
fn least(reader: &mut Reader) -> Result<Number, Refusal>
    ensures { Consumes least_at reader.old reader.new result }
{
    reader.take(Sort::Comma)?;
    let (_at, time) = reader.number(Sort::Time)?;
    reader.take(Sort::CloseParenthesis)?;
    Ok(time)
}

// ---- within a level that is open: it and those in it may be `room` levels

/// Reads a part of a window within a level.
#[cycle(window)]
fn inner(
    alloc: Global,
    reader: &mut Reader,
    room: usize,
    part: WindowPart,
) -> Result<LeveledWindow, Refusal>
    requires levels { room ≤ 64 }
    ensures read { Consumes (inner_readers room part) reader.old reader.new result }
    ensures low { IfOk result (λ whole. whole.height < room) }
{
    if room == 0 {
        return Err(Refusal::Syntax);
    }
    match part {
        WindowPart::Window => disjunction(alloc, reader, room - 1),
        WindowPart::Conjunction => conjunction(alloc, reader, room - 1),
        WindowPart::Atom => atom(alloc, reader, room - 1),
    }
}

/// Reads a window in parentheses.
#[cycle(window)]
#[tactic(auto, unfolding(crate::specs::reading::Windows::parentheses_at))]
fn parentheses(alloc: Global, reader: &mut Reader, room: usize) -> Result<LeveledWindow, Refusal>
    requires levels { room ≤ 64 }
    ensures read { Consumes (parentheses_at (inner_readers room)) reader.old reader.new result }
    ensures low { IfOk result (λ whole. whole.height ≤ room) }
{
    reader.take(Sort::OpenParenthesis)?;
    let inner = inner(alloc, reader, room, WindowPart::Window)?;
    ended_by(reader, Sort::CloseParenthesis, in_parentheses(inner))
}

#[cycle(window)]
#[tactic(auto, unfolding(crate::specs::reading::Windows::not_at))]
fn not(alloc: Global, reader: &mut Reader, room: usize) -> Result<LeveledWindow, Refusal>
    requires levels { room ≤ 64 }
    ensures read { Consumes (not_at (inner_readers room)) reader.old reader.new result }
    ensures low { IfOk result (λ whole. whole.height ≤ room) }
{
    reader.take(Sort::Not)?;
    let operand = inner(alloc, reader, room, WindowPart::Atom)?;
    Ok(outside(alloc, operand)?)
}

/// Reads a window and by how much its starts and ends are moved, in parentheses.
#[cycle(window)]
#[tactic(auto, unfolding(crate::specs::reading::Windows::shifted_at))]
fn read_shifted(alloc: Global, reader: &mut Reader, room: usize) -> Result<LeveledWindow, Refusal>
    requires levels { room ≤ 64 }
    ensures read { Consumes (shifted_at (inner_readers room)) reader.old reader.new result }
    ensures low { IfOk result (λ whole. whole.height ≤ room) }
{
    reader.take(Sort::OpenParenthesis)?;
    let inner = inner(alloc, reader, room, WindowPart::Window)?;
    let by = bounds(reader)?;
    Ok(shifted(alloc, inner, by)?)
}

/// Reads a window and how long its intervals are at least, in parentheses.
#[cycle(window)]
#[tactic(auto, unfolding(crate::specs::reading::Windows::lasting_at))]
fn read_lasting(alloc: Global, reader: &mut Reader, room: usize) -> Result<LeveledWindow, Refusal>
    requires levels { room ≤ 64 }
    ensures read { Consumes (lasting_at (inner_readers room)) reader.old reader.new result }
    ensures low { IfOk result (λ whole. whole.height ≤ room) }
{
    reader.take(Sort::OpenParenthesis)?;
    let inner = inner(alloc, reader, room, WindowPart::Window)?;
    let least = least(reader)?;
    Ok(lasting(alloc, inner, least)?)
}

// ---- where `room` levels may be opened

#[cycle(window)]
#[tactic(auto, unfolding(crate::specs::reading::Windows::shift_at, crate::specs::reading::Levels::parenthesis_opening))]
fn shift(alloc: Global, reader: &mut Reader, room: usize) -> Result<LeveledWindow, Refusal>
    requires levels { room ≤ 64 }
    ensures read { Consumes (shift_at room (inner_readers room)) reader.old reader.new result }
    ensures low { IfOk result (λ whole. whole.height ≤ room) }
{
    reader.take(Sort::Shift)?;
    if !reader.next_is(Sort::OpenParenthesis) {
        return Err(Refusal::Syntax);
    }
    if room == 0 {
        return Err(Refusal::TooMany(Limit::Depth));
    }
    read_shifted(alloc, reader, room)
}

#[cycle(window)]
#[tactic(auto, unfolding(crate::specs::reading::Windows::longer_at, crate::specs::reading::Levels::parenthesis_opening))]
fn longer(alloc: Global, reader: &mut Reader, room: usize) -> Result<LeveledWindow, Refusal>
    requires levels { room ≤ 64 }
    ensures read { Consumes (longer_at room (inner_readers room)) reader.old reader.new result }
    ensures low { IfOk result (λ whole. whole.height ≤ room) }
{
    reader.take(Sort::Longer)?;
    if !reader.next_is(Sort::OpenParenthesis) {
        return Err(Refusal::Syntax);
    }
    if room == 0 {
        return Err(Refusal::TooMany(Limit::Depth));
    }
    read_lasting(alloc, reader, room)
}

/// Reads an atom that begins with neither `not` nor a parenthesis.
#[cycle(window)]
#[tactic(auto, unfolding(crate::specs::reading::Windows::simple_atom_at))]
fn simple_atom(alloc: Global, reader: &mut Reader, room: usize) -> Result<LeveledWindow, Refusal>
    requires levels { room ≤ 64 }
    ensures read { Consumes (simple_atom_at room (inner_readers room)) reader.old reader.new result }
    ensures low { IfOk result (λ whole. whole.height ≤ room) }
{
    if reader.next_is(Sort::True) {
        truth(reader, true)
    } else if reader.next_is(Sort::False) {
        truth(reader, false)
    } else if reader.next_is(Sort::During) {
        during(alloc, reader, room)
    } else if reader.next_is(Sort::Shift) {
        shift(alloc, reader, room)
    } else if reader.next_is(Sort::Longer) {
        longer(alloc, reader, room)
    } else if reader.next_is(Sort::Name) {
        named_atom(alloc, reader, room)
    } else {
        unnamed_atom(alloc, reader, room)
    }
}

#[cycle(window)]
#[tactic(auto, unfolding(crate::specs::reading::Windows::atom_at))]
fn atom(alloc: Global, reader: &mut Reader, room: usize) -> Result<LeveledWindow, Refusal>
    requires levels { room ≤ 64 }
    ensures read { Consumes (atom_at room (inner_readers room)) reader.old reader.new result }
    ensures low { IfOk result (λ whole. whole.height ≤ room) }
{
    if reader.next_is(Sort::Not) {
        if room == 0 {
            return Err(Refusal::TooMany(Limit::Depth));
        }
        not(alloc, reader, room)
    } else if reader.next_is(Sort::OpenParenthesis) {
        if room == 0 {
            return Err(Refusal::TooMany(Limit::Depth));
        }
        parentheses(alloc, reader, room)
    } else {
        simple_atom(alloc, reader, room)
    }
}

/// Reads an operator and its right side.
#[cycle(window)]
#[tactic(auto, unfolding(crate::specs::reading::Windows::operand_at))]
fn operand(
    alloc: Global,
    reader: &mut Reader,
    room: usize,
    joining: Joining,
) -> Result<LeveledWindow, Refusal>
    requires levels { room ≤ 64 }
    ensures read { Consumes (operand_at joining (inner_readers room)) reader.old reader.new result }
    ensures low { IfOk result (λ right. right.height < room) }
{
    reader.take(joining.word())?;
    inner(alloc, reader, room, joining.operand())
}

/// The same behind the left side.
#[cycle(window)]
#[tactic(auto, unfolding(crate::specs::reading::Windows::operated_at))]
fn operated(
    alloc: Global,
    reader: &mut Reader,
    room: usize,
    joining: Joining,
    left: LeveledWindow,
) -> Result<LeveledWindow, Refusal>
    requires levels { room ≤ 64 }
    requires left { left.height < room }
    ensures read { Consumes (operated_at joining (inner_readers room) left) reader.old reader.new result }
    ensures low { IfOk result (λ whole. whole.height ≤ room) }
{
    let right = operand(alloc, reader, room, joining)?;
    Ok(joined_levels(alloc, joining, left, right)?)
}

/// The same; the operator opens one level more than there are on its left side.
#[cycle(window)]
#[tactic(auto, unfolding(crate::specs::reading::Windows::operation_at))]
fn operation(
    alloc: Global,
    reader: &mut Reader,
    room: usize,
    joining: Joining,
    left: LeveledWindow,
) -> Result<LeveledWindow, Refusal>
    requires levels { room ≤ 64 }
    requires left { left.height ≤ room }
    ensures read { Consumes (operation_at room joining (inner_readers room) left) reader.old reader.new result }
    ensures low { IfOk result (λ whole. whole.height ≤ room) }
{
    if room <= left.height {
        return Err(Refusal::TooMany(Limit::Depth));
    }
    operated(alloc, reader, room, joining, left)
}

#[cycle(window)]
#[tactic(auto, unfolding(crate::specs::reading::Windows::conjunction_at))]
fn conjunction(alloc: Global, reader: &mut Reader, room: usize) -> Result<LeveledWindow, Refusal>
    requires levels { room ≤ 64 }
    ensures read { Consumes (conjunction_at room (inner_readers room)) reader.old reader.new result }
    ensures low { IfOk result (λ whole. whole.height ≤ room) }
{
    let mut left = atom(alloc, reader, room)?;
    while reader.next_is(Sort::And) {
        left = operation(alloc, reader, room, Joining::And, left)?;
    }
    Ok(left)
}

#[cycle(window)]
#[tactic(auto, unfolding(crate::specs::reading::Windows::disjunction_at))]
fn disjunction(alloc: Global, reader: &mut Reader, room: usize) -> Result<LeveledWindow, Refusal>
    requires levels { room ≤ 64 }
    ensures read { Consumes (disjunction_at room (inner_readers room)) reader.old reader.new result }
    ensures low { IfOk result (λ whole. whole.height ≤ room) }
{
    let mut left = conjunction(alloc, reader, room)?;
    while reader.next_is(Sort::Or) {
        left = operation(alloc, reader, room, Joining::Or, left)?;
    }
    Ok(left)
}

/// Reads a window, at whose beginning no level is open.
#[tactic(auto, unfolding(crate::specs::reading::Windows::window_at))]
pub fn window(alloc: Global, reader: &mut Reader) -> Result<RawWindow, Refusal>
    ensures { Consumes window_at reader.old reader.new result }
{
    let whole = disjunction(alloc, reader, MOST_LEVELS)?;
    Ok(whole.window)
}
