//! Sections of rules. What stands in them is passed over, in time linear in its tokens.

ghost use Rattle.std.specs.Prelude.{◌≡◌, ◌-◌, length};
ghost use Rattle.readers.specs.Implements.{Consumes, MayConsume};
ghost use Rattle.readers.specs.Lists.{pushed_at};
ghost use Rattle.readers.specs.Parsed.{next_fits, next_is_one_of};
ghost use Rattle.session_grammar.specs.reading.Sections.{is_no_brace, passed_if, rule_token_at, rules_at, some_model_at, of_model_at, section_at, sections_with};

use crate::raw::RawSection;
use crate::reading::mappings::raw_named;
use aerie_base::List;
use aerie_text::Sort;
use model_reader::RawName;
use readers::{Reader, Refusal, ended_by};
use std::alloc::Global;

/// All sorts but the braces, those that are frequent in rules first.
const RULE_SORTS: [Sort; 100] = [
    Sort::Name,
    Sort::Number,
    Sort::Time,
    Sort::Semicolon,
    Sort::Comma,
    Sort::OpenParenthesis,
    Sort::CloseParenthesis,
    Sort::Colon,
    Sort::Dot,
    Sort::Assign,
    Sort::Minus,
    Sort::Plus,
    Sort::Star,
    Sort::Less,
    Sort::Greater,
    Sort::LessEqual,
    Sort::GreaterEqual,
    Sort::DoubleEqual,
    Sort::NotEqual,
    Sort::Not,
    Sort::And,
    Sort::Or,
    Sort::For,
    Sort::In,
    Sort::During,
    Sort::Start,
    Sort::End,
    Sort::Forbid,
    Sort::Quoted,
    Sort::Raw,
    Sort::OpenBracket,
    Sort::CloseBracket,
    Sort::Slash,
    Sort::Percent,
    Sort::Exclamation,
    Sort::ColonAssign,
    Sort::PlusAssign,
    Sort::DoubleAmpersand,
    Sort::DoubleBar,
    Sort::Arrow,
    Sort::Accumulator,
    Sort::Activity,
    Sort::Add,
    Sort::At,
    Sort::Call,
    Sort::Cardinality,
    Sort::Client,
    Sort::Coexistence,
    Sort::Conflicted,
    Sort::Constraints,
    Sort::Count,
    Sort::Counter,
    Sort::Daemon,
    Sort::Delay,
    Sort::Discrete,
    Sort::Drop,
    Sort::Duration,
    Sort::Else,
    Sort::Enum,
    Sort::Every,
    Sort::Expand,
    Sort::False,
    Sort::Fork,
    Sort::From,
    Sort::Goals,
    Sort::If,
    Sort::Int,
    Sort::Keeping,
    Sort::Let,
    Sort::Linear,
    Sort::Load,
    Sort::Longer,
    Sort::Merge,
    Sort::Model,
    Sort::Move,
    Sort::New,
    Sort::Of,
    Sort::Plan,
    Sort::Rate,
    Sort::Recurrence,
    Sort::Register,
    Sort::Remove,
    Sort::Require,
    Sort::Return,
    Sort::Rollback,
    Sort::Schedule,
    Sort::Sequence,
    Sort::Set,
    Sort::Shift,
    Sort::Show,
    Sort::Simulate,
    Sort::Spawn,
    Sort::To,
    Sort::True,
    Sort::Truth,
    Sort::Until,
    Sort::Volume,
    Sort::Wait,
    Sort::While,
    Sort::Window,
];

/// Whether the next token may stand among rules.
fn is_in_rules(reader: &Reader) -> bool
    ensures { result ≡ next_fits is_no_brace reader.now }
{
    reader.left() > 0 && !reader.next_is_one_of(&[Sort::OpenBrace, Sort::CloseBrace])
}

/// Reads the next token if it is of one of these sorts, and says whether it is.
fn has_one_of(reader: &mut Reader, sorts: &[Sort]) -> bool
    ensures fits { result ≡ next_is_one_of sorts.now reader.old }
    ensures left { reader.new ≡ passed_if result reader.old }
{
    match sorts.split_first() {
        Some((first, others)) => reader.has(*first) || has_one_of(reader, others),
        None => false,
    }
}

/// Reads a token that may stand among rules.
fn rule_token(reader: &mut Reader) -> Result<(), Refusal>
    ensures { Consumes (rule_token_at tt) reader.old reader.new result }
{
    if has_one_of(reader, &RULE_SORTS) {
        Ok(())
    } else {
        Err(Refusal::Syntax)
    }
}

/// Passes over rules.
#[tactic(auto, unfolding(crate::specs::reading::Sections::rules_at))]
fn rules(reader: &mut Reader) -> Result<(), Refusal>
    ensures { MayConsume rules_at reader.old reader.new result }
{
    while is_in_rules(reader) {
        rule_token(reader)?;
    }
    Ok(())
}

#[tactic(auto, unfolding(crate::specs::reading::Sections::some_model_at))]
fn some_model(alloc: Global, reader: &mut Reader) -> Result<Option<RawName>, Refusal>
    ensures { Consumes some_model_at reader.old reader.new result }
{
    let name = raw_named(alloc, reader, Sort::Of)?;
    Ok(Some(name))
}

/// Reads the model of which a section is, where it names one.
#[tactic(auto, unfolding(crate::specs::reading::Sections::of_model_at))]
fn of_model(alloc: Global, reader: &mut Reader) -> Result<Option<RawName>, Refusal>
    ensures { MayConsume of_model_at reader.old reader.new result }
{
    if reader.next_is(Sort::Of) {
        some_model(alloc, reader)
    } else {
        Ok(None)
    }
}

/// The number of the next token of so many.
fn number_of_next(reader: &Reader, count: usize) -> usize
    ensures { result ≡ count - length reader.now }
{
    count.saturating_sub(reader.left())
}

/// Reads a section with this word, in a text of so many tokens.
#[tactic(auto, unfolding(crate::specs::reading::Sections::section_at))]
fn section(
    alloc: Global,
    reader: &mut Reader,
    sort: Sort,
    count: usize,
) -> Result<RawSection, Refusal>
    ensures { Consumes (section_at sort count) reader.old reader.new result }
{
    let at = reader.take(sort)?;
    let of = of_model(alloc, reader)?;
    reader.take(Sort::OpenBrace)?;
    let from = number_of_next(reader, count);
    rules(reader)?;
    let to = number_of_next(reader, count);
    ended_by(reader, Sort::CloseBrace, RawSection { at, of, from, to })
}

/// Reads a section, and puts it behind those so far.
fn one_more_section(
    alloc: Global,
    reader: &mut Reader,
    sort: Sort,
    count: usize,
    so_far: List<RawSection>,
) -> Result<List<RawSection>, Refusal>
    ensures { Consumes (pushed_at (section_at sort count) so_far) reader.old reader.new result }
{
    let mut sections = so_far;
    let last = section(alloc, reader, sort, count)?;
    sections.push(last)?;
    Ok(sections)
}

/// Reads the sections with this word, in a text of so many tokens.
#[tactic(auto, unfolding(crate::specs::reading::Sections::sections_with))]
pub fn sections_with(
    alloc: Global,
    reader: &mut Reader,
    sort: Sort,
    count: usize,
) -> Result<List<RawSection>, Refusal>
    ensures { MayConsume (sections_with sort count) reader.old reader.new result }
{
    let mut sections = List::new(alloc);
    while reader.next_is(sort) {
        sections = one_more_section(alloc, reader, sort, count, sections)?;
    }
    Ok(sections)
}
