//! Goals. The time is linear in their tokens.

ghost use Rattle.std.specs.Prelude.{◌≡◌};
ghost use Rattle.readers.specs.Implements.{Consumes, MayConsume};
ghost use Rattle.readers.specs.Parsed.{next_fits};
ghost use Rattle.rule_grammar.specs.reading.Edges.{is_edge, placed_edge_at, edge_at};
ghost use Rattle.rule_grammar.specs.reading.Goals.{range_at, anchor_at_edges, edges_at, window_anchor_at, counted_at, recurrence_at, cardinality_at, distance_at, beside_at, anchor_at, coexisting_at, coexistence_at, kind_at, kept_at, keeping_at, terms_at, ended_goal_at, goal_at, goals_at};

use crate::raw::{RawAnchor, RawGoal, RawGoalKind, RawNumber, RawRange, RawTemplate};
use crate::reading::literals::{placed_duration, raw_number};
use crate::reading::templates::template;
use crate::reading::windows::{signed_duration, window};
use aerie_base::{Edge, List, Number, Place};
use aerie_text::Sort;
use model_reader::{OneName, RawName, raw_name};
use readers::{Element, Reader, Refusal, ended_by, listed, one_of, row};
use std::alloc::Global;

/// Reads a range of time.
#[tactic(auto, unfolding(crate::specs::reading::Goals::range_at))]
fn range(reader: &mut Reader) -> Result<RawRange, Refusal>
    ensures { Consumes range_at reader.old reader.new result }
{
    reader.take(Sort::OpenBracket)?;
    let (_at, from) = reader.number(Sort::Time)?;
    reader.take(Sort::Comma)?;
    let to = raw_number(reader, Sort::Time)?;
    reader.take(Sort::CloseParenthesis)?;
    Ok(RawRange { from, to })
}

// ---- anchors

/// Reads which edge of a span is meant, and gives the place of the word too.
#[tactic(auto, unfolding(crate::specs::reading::Edges::placed_edge_at))]
pub fn placed_edge(reader: &mut Reader) -> Result<(Place, Edge), Refusal>
    ensures { Consumes placed_edge_at reader.old reader.new result }
{
    one_of(
        reader,
        &[(Sort::Start, Edge::Start), (Sort::End, Edge::End)],
    )
}

#[tactic(auto, unfolding(crate::specs::reading::Edges::edge_at))]
fn edge(reader: &mut Reader) -> Result<Edge, Refusal>
    ensures { Consumes edge_at reader.old reader.new result }
{
    let (_at, edge) = placed_edge(reader)?;
    Ok(edge)
}

/// The starts, or the ends, of the spans of an activity type.
fn anchor_at_edges(edge: Edge, name: RawName) -> RawAnchor
    ensures { result ≡ anchor_at_edges edge name }
{
    match edge {
        Edge::Start => RawAnchor::Starts(name),
        Edge::End => RawAnchor::Ends(name),
    }
}

#[tactic(auto, unfolding(crate::specs::reading::Goals::edges_at))]
fn edges(alloc: Global, reader: &mut Reader) -> Result<RawAnchor, Refusal>
    ensures { Consumes edges_at reader.old reader.new result }
{
    let edge = edge(reader)?;
    reader.take(Sort::Of)?;
    let name = raw_name(alloc, reader)?;
    Ok(anchor_at_edges(edge, name))
}

#[tactic(auto, unfolding(crate::specs::reading::Goals::window_anchor_at))]
fn window_anchor(alloc: Global, reader: &mut Reader) -> Result<RawAnchor, Refusal>
    ensures { Consumes window_anchor_at reader.old reader.new result }
{
    reader.take(Sort::Window)?;
    reader.take(Sort::OpenParenthesis)?;
    let window = window(alloc, reader)?;
    ended_by(reader, Sort::CloseParenthesis, RawAnchor::Windows(window))
}

/// Whether the next token is `start` or `end`.
fn is_at_edge(reader: &Reader) -> bool
    ensures { result ≡ next_fits is_edge reader.now }
{
    reader.next_is_one_of(&[Sort::Start, Sort::End])
}

#[tactic(auto, unfolding(crate::specs::reading::Goals::anchor_at))]
fn anchor(alloc: Global, reader: &mut Reader) -> Result<RawAnchor, Refusal>
    ensures { Consumes anchor_at reader.old reader.new result }
{
    if is_at_edge(reader) {
        edges(alloc, reader)
    } else {
        window_anchor(alloc, reader)
    }
}

// ---- kinds

/// Reads a word, a number of this sort, and in which range it is meant.
#[tactic(auto, unfolding(crate::specs::reading::Goals::counted_at))]
fn counted(reader: &mut Reader, word: Sort, number: Sort) -> Result<(RawNumber, RawRange), Refusal>
    ensures { Consumes (counted_at word number) reader.old reader.new result }
{
    reader.take(word)?;
    let count = raw_number(reader, number)?;
    reader.take(Sort::In)?;
    let range = range(reader)?;
    Ok((count, range))
}

#[tactic(auto, unfolding(crate::specs::reading::Goals::recurrence_at))]
fn recurrence(alloc: Global, reader: &mut Reader) -> Result<(RawTemplate, RawGoalKind), Refusal>
    ensures { Consumes recurrence_at reader.old reader.new result }
{
    reader.take(Sort::Recurrence)?;
    let template = template(alloc, reader)?;
    let (every, range) = counted(reader, Sort::Every, Sort::Time)?;
    Ok((template, RawGoalKind::Recurrence { every, range }))
}

#[tactic(auto, unfolding(crate::specs::reading::Goals::cardinality_at))]
fn cardinality(alloc: Global, reader: &mut Reader) -> Result<(RawTemplate, RawGoalKind), Refusal>
    ensures { Consumes cardinality_at reader.old reader.new result }
{
    reader.take(Sort::Cardinality)?;
    let template = template(alloc, reader)?;
    let (count, range) = counted(reader, Sort::Count, Sort::Number)?;
    Ok((template, RawGoalKind::Cardinality { count, range }))
}

/// Reads from how long to how long behind an anchor a start stands.
#[tactic(auto, unfolding(crate::specs::reading::Goals::distance_at))]
fn distance(reader: &mut Reader) -> Result<(Number, RawNumber), Refusal>
    ensures { Consumes distance_at reader.old reader.new result }
{
    reader.take(Sort::From)?;
    let from = signed_duration(reader)?;
    reader.take(Sort::To)?;
    let to = placed_duration(reader)?;
    Ok((from, to))
}

/// Reads the same behind the anchor.
#[tactic(auto, unfolding(crate::specs::reading::Goals::beside_at))]
fn beside(reader: &mut Reader, anchor: RawAnchor) -> Result<RawGoalKind, Refusal>
    ensures { Consumes (beside_at anchor) reader.old reader.new result }
{
    let (from, to) = distance(reader)?;
    Ok(RawGoalKind::Coexistence { anchor, from, to })
}

/// Reads the anchor and what stands behind it.
#[tactic(auto, unfolding(crate::specs::reading::Goals::coexisting_at))]
fn coexisting(alloc: Global, reader: &mut Reader) -> Result<RawGoalKind, Refusal>
    ensures { Consumes coexisting_at reader.old reader.new result }
{
    reader.take(Sort::For)?;
    let anchor = anchor(alloc, reader)?;
    beside(reader, anchor)
}

#[tactic(auto, unfolding(crate::specs::reading::Goals::coexistence_at))]
fn coexistence(alloc: Global, reader: &mut Reader) -> Result<(RawTemplate, RawGoalKind), Refusal>
    ensures { Consumes coexistence_at reader.old reader.new result }
{
    reader.take(Sort::Coexistence)?;
    let template = template(alloc, reader)?;
    let kind = coexisting(alloc, reader)?;
    Ok((template, kind))
}

/// Reads what a goal asks for.
#[tactic(auto, unfolding(crate::specs::reading::Goals::kind_at))]
fn kind(alloc: Global, reader: &mut Reader) -> Result<(RawTemplate, RawGoalKind), Refusal>
    ensures { Consumes kind_at reader.old reader.new result }
{
    if reader.next_is(Sort::Recurrence) {
        recurrence(alloc, reader)
    } else if reader.next_is(Sort::Coexistence) {
        coexistence(alloc, reader)
    } else {
        cardinality(alloc, reader)
    }
}

// ---- goals

#[tactic(auto, unfolding(crate::specs::reading::Goals::kept_at))]
fn kept(alloc: Global, reader: &mut Reader) -> Result<List<RawName>, Refusal>
    ensures { Consumes kept_at reader.old reader.new result }
{
    reader.take(Sort::Keeping)?;
    listed::<OneName>(alloc, reader, Sort::Name, None)
}

#[tactic(auto, unfolding(crate::specs::reading::Goals::keeping_at))]
fn keeping(alloc: Global, reader: &mut Reader) -> Result<List<RawName>, Refusal>
    ensures { MayConsume keeping_at reader.old reader.new result }
{
    if reader.next_is(Sort::Keeping) {
        kept(alloc, reader)
    } else {
        Ok(List::new(alloc))
    }
}

/// Reads which constraints are kept, whether placements are taken back, and the semicolon.
#[tactic(auto, unfolding(crate::specs::reading::Goals::terms_at))]
fn terms(alloc: Global, reader: &mut Reader) -> Result<(List<RawName>, bool), Refusal>
    ensures { Consumes terms_at reader.old reader.new result }
{
    let keeping = keeping(alloc, reader)?;
    let rollback = reader.has(Sort::Rollback);
    reader.take(Sort::Semicolon)?;
    Ok((keeping, rollback))
}

/// Reads the same behind the name and the kind of a goal.
#[tactic(auto, unfolding(crate::specs::reading::Goals::ended_goal_at))]
fn ended_goal(
    alloc: Global,
    reader: &mut Reader,
    name: RawName,
    kind: (RawTemplate, RawGoalKind),
) -> Result<RawGoal, Refusal>
    ensures { Consumes (ended_goal_at name kind) reader.old reader.new result }
{
    let (keeping, rollback) = terms(alloc, reader)?;
    let (template, kind) = kind;
    Ok(RawGoal {
        name,
        template,
        kind,
        keeping,
        rollback,
    })
}

/// A goal and its semicolon.
struct OneGoal;

impl Element for OneGoal {
    type Part = RawGoal;

    ghost part_at = { goal_at };

    #[tactic(auto, unfolding(crate::specs::reading::Goals::goal_at))]
    fn part(alloc: Global, reader: &mut Reader) -> Result<RawGoal, Refusal> {
        let name = raw_name(alloc, reader)?;
        reader.take(Sort::Colon)?;
        let kind = kind(alloc, reader)?;
        ended_goal(alloc, reader, name, kind)
    }
}

/// Reads goals, as many as there are.
#[tactic(auto, unfolding(crate::specs::reading::Goals::goals_at))]
pub fn goal_list(alloc: Global, reader: &mut Reader) -> Result<List<RawGoal>, Refusal>
    ensures { MayConsume goals_at reader.old reader.new result }
{
    row::<OneGoal>(alloc, reader, &[Sort::Name], None)
}
