//! Constraints. The time is linear in their tokens.

ghost use Rattle.std.specs.Prelude.{◌≡◌};
ghost use Rattle.readers.specs.Implements.{Consumes, MayConsume};
ghost use Rattle.rule_grammar.specs.reading.Constraints.{forbid_at, each_at, optional_each_at, window_rule_of, window_rule_at, rule_at, constraint_at, constraints_at};

use crate::raw::{RawConstraint, RawRule, RawWindow};
use crate::reading::windows::window;
use aerie_base::List;
use aerie_text::Sort;
use model_reader::{RawName, raw_name};
use readers::{Element, Reader, Refusal, ended_by, row};
use std::alloc::Global;

/// Reads `forbid` and two activity types.
#[tactic(auto, unfolding(crate::specs::reading::Constraints::forbid_at))]
fn forbid(alloc: Global, reader: &mut Reader) -> Result<RawRule, Refusal>
    ensures { Consumes forbid_at reader.old reader.new result }
{
    reader.take(Sort::Forbid)?;
    let first = raw_name(alloc, reader)?;
    reader.take(Sort::Comma)?;
    let second = raw_name(alloc, reader)?;
    Ok(RawRule::Forbid { first, second })
}

/// Reads `for`, the name that it binds, and the activity type.
#[tactic(auto, unfolding(crate::specs::reading::Constraints::each_at))]
fn each(alloc: Global, reader: &mut Reader) -> Result<Option<(RawName, RawName)>, Refusal>
    ensures { Consumes each_at reader.old reader.new result }
{
    reader.take(Sort::For)?;
    let bound = raw_name(alloc, reader)?;
    reader.take(Sort::In)?;
    let kind = raw_name(alloc, reader)?;
    reader.take(Sort::Colon)?;
    Ok(Some((bound, kind)))
}

/// Reads the same, where the next token is `for`.
#[tactic(auto, unfolding(crate::specs::reading::Constraints::optional_each_at))]
fn optional_each(alloc: Global, reader: &mut Reader) -> Result<Option<(RawName, RawName)>, Refusal>
    ensures { MayConsume optional_each_at reader.old reader.new result }
{
    if reader.next_is(Sort::For) {
        each(alloc, reader)
    } else {
        Ok(None)
    }
}

/// The rule that a window is, where `for` may stand before it.
fn window_rule_of(each: Option<(RawName, RawName)>, window: RawWindow) -> RawRule
    ensures { result ≡ window_rule_of each window }
{
    match each {
        None => RawRule::Plain(window),
        Some((bound, kind)) => RawRule::Each {
            bound,
            kind,
            window,
        },
    }
}

#[tactic(auto, unfolding(crate::specs::reading::Constraints::window_rule_at))]
fn window_rule(alloc: Global, reader: &mut Reader) -> Result<RawRule, Refusal>
    ensures { Consumes window_rule_at reader.old reader.new result }
{
    let each = optional_each(alloc, reader)?;
    let window = window(alloc, reader)?;
    Ok(window_rule_of(each, window))
}

/// Reads what a constraint says.
#[tactic(auto, unfolding(crate::specs::reading::Constraints::rule_at))]
fn rule(alloc: Global, reader: &mut Reader) -> Result<RawRule, Refusal>
    ensures { Consumes rule_at reader.old reader.new result }
{
    if reader.next_is(Sort::Forbid) {
        forbid(alloc, reader)
    } else {
        window_rule(alloc, reader)
    }
}

/// A constraint and its semicolon.
struct OneConstraint;

impl Element for OneConstraint {
    type Part = RawConstraint;

    ghost part_at = { constraint_at };

    #[tactic(auto, unfolding(crate::specs::reading::Constraints::constraint_at))]
    fn part(alloc: Global, reader: &mut Reader) -> Result<RawConstraint, Refusal> {
        let name = raw_name(alloc, reader)?;
        reader.take(Sort::Colon)?;
        let rule = rule(alloc, reader)?;
        ended_by(reader, Sort::Semicolon, RawConstraint { name, rule })
    }
}

/// Reads constraints, as many as there are.
#[tactic(auto, unfolding(crate::specs::reading::Constraints::constraints_at))]
pub fn constraint_list(alloc: Global, reader: &mut Reader) -> Result<List<RawConstraint>, Refusal>
    ensures { MayConsume constraints_at reader.old reader.new result }
{
    row::<OneConstraint>(alloc, reader, &[Sort::Name], None)
}
