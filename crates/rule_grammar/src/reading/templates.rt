//! Activities with arguments.

ghost use Rattle.readers.specs.Implements.{Consumes};
ghost use Rattle.rule_grammar.specs.reading.Templates.{argument_at, template_at};

use crate::raw::RawTemplate;
use aerie_text::Sort;
use model_reader::{RawLiteral, RawName, literal, raw_name};
use readers::{Element, Reader, Refusal, parenthesized};
use std::alloc::Global;

/// An argument: the name of a parameter and a literal.
struct TemplateArgument;

impl Element for TemplateArgument {
    type Part = (RawName, RawLiteral);

    ghost part_at = { argument_at };

    #[tactic(auto, unfolding(crate::specs::reading::Templates::argument_at))]
    fn part(alloc: Global, reader: &mut Reader) -> Result<(RawName, RawLiteral), Refusal> {
        let name = raw_name(alloc, reader)?;
        reader.take(Sort::Assign)?;
        let value = literal(alloc, reader)?;
        Ok((name, value))
    }
}

/// Reads the name of an activity type and its arguments. The time is linear in their tokens.
#[tactic(auto, unfolding(crate::specs::reading::Templates::template_at))]
pub fn template(alloc: Global, reader: &mut Reader) -> Result<RawTemplate, Refusal>
    ensures { Consumes template_at reader.old reader.new result }
{
    let kind = raw_name(alloc, reader)?;
    let arguments = parenthesized::<TemplateArgument>(alloc, reader, Sort::Name, None)?;
    Ok(RawTemplate { kind, arguments })
}
