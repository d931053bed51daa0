//! Activities with arguments. The time is linear in their marks.

ghost use Rattle.readers.specs.Implements.{Consumes};
ghost use Rattle.model_reader.specs.reading.Statements.{argument_at, invoke_at};

use crate::raw::{RawExpr, RawInvoke, RawName};
use crate::reading::expressions::expr;
use crate::reading::names::raw_name;
use aerie_text::Sort;
use readers::{Element, Reader, Refusal, parenthesized};
use std::alloc::Global;

/// An argument: the name of a parameter and its value.
struct OneArgument;

impl Element for OneArgument {
    type Part = (RawName, RawExpr);

    ghost part_at = { argument_at };

    #[tactic(auto, unfolding(crate::specs::reading::Statements::argument_at))]
    fn part(alloc: Global, reader: &mut Reader) -> Result<(RawName, RawExpr), Refusal> {
        let name = raw_name(alloc, reader)?;
        reader.take(Sort::Assign)?;
        let value = expr(alloc, reader)?;
        Ok((name, value))
    }
}

/// Reads the name of an activity type and its arguments.
#[tactic(auto, unfolding(crate::specs::reading::Statements::invoke_at))]
pub fn invoke(alloc: Global, reader: &mut Reader) -> Result<RawInvoke, Refusal>
    ensures { Consumes invoke_at reader.old reader.new result }
{
    let name = raw_name(alloc, reader)?;
    let arguments = parenthesized::<OneArgument>(alloc, reader, Sort::Name, None)?;
    Ok(RawInvoke { name, arguments })
}
