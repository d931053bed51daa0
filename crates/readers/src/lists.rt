//! Lists: parts in a row, or with commas between them. The time is linear in their tokens.

ghost use Rattle.std.specs.Prelude.{◌≡◌};
ghost use Rattle.aerie_text.specs.declared.sorts.Sort.TheVariants.{Comma};
ghost use Rattle.readers.specs.Implements.{Consumes, MayConsume};
ghost use Rattle.readers.specs.Lists.{limit_passed, pushed_at, one_more_at, separated_parts_at, listed_at, optional_list_at, parenthesized_at, one_more_of, row_at};
ghost use Rattle.readers.specs.Parsed.{behind_at};

use crate::limits::Limit;
use crate::reader::Reader;
use crate::refusal::Refusal;
use aerie_base::List;
use aerie_text::Sort;
use std::alloc::Global;

/// What a list is of, and how one of it is read.
pub trait Element {
    /// What is read.
    type Part: Drop;

    ghost use Rattle.std.specs.Prelude.{List as Items};
    ghost use Rattle.readers.specs.Marks.{Mark};
    ghost use Rattle.readers.specs.Parsed.{Parsed};

    ghost part_at: { Items Mark → Parsed Self.Part };

    /// Reads one.
    fn part(alloc: Global, reader: &mut Reader) -> Result<Self::Part, Refusal>
        ensures { Consumes part_at reader.old reader.new result };
}

/// How many parts a list may have, and the limit that is passed where it has more.
#[derive(Clone, Copy, Debug)]
pub struct Most {
    /// So many at most.
    pub count: usize,
    /// What is limited.
    pub limit: Limit,
}

/// The limit that is passed with one part more than so many, where the list has one and is full.
fn limit_passed(most: Option<Most>, count: usize) -> Option<Limit>
    ensures { result ≡ limit_passed most count }
{
    match most {
        Some(most) => {
            if most.count <= count {
                Some(most.limit)
            } else {
                None
            }
        }
        None => None,
    }
}

/// Reads a part, and puts it behind those so far.
fn pushed<E: Element>(
    alloc: Global,
    reader: &mut Reader,
    so_far: List<E::Part>,
) -> Result<List<E::Part>, Refusal>
    ensures { Consumes (pushed_at E.part_at so_far) reader.old reader.new result }
{
    let mut parts = so_far;
    let last = E::part(alloc, reader)?;
    parts.push(last)?;
    Ok(parts)
}

/// The same behind a comma.
fn next_pushed<E: Element>(
    alloc: Global,
    reader: &mut Reader,
    so_far: List<E::Part>,
) -> Result<List<E::Part>, Refusal>
    ensures { Consumes (behind_at Comma (pushed_at E.part_at) so_far) reader.old reader.new result }
{
    reader.take(Sort::Comma)?;
    pushed::<E>(alloc, reader, so_far)
}

/// Reads one part or more, with commas between them, whatever a part begins with.
pub fn separated<E: Element>(alloc: Global, reader: &mut Reader) -> Result<List<E::Part>, Refusal>
    ensures { Consumes (separated_parts_at E.part_at) reader.old reader.new result }
{
    let mut parts = pushed::<E>(alloc, reader, List::new(alloc))?;
    while reader.next_is(Sort::Comma) {
        parts = next_pushed::<E>(alloc, reader, parts)?;
    }
    Ok(parts)
}

/// Reads a part, where there may be one more, and puts it behind those so far.
fn one_more<E: Element>(
    alloc: Global,
    reader: &mut Reader,
    most: Option<Most>,
    so_far: List<E::Part>,
) -> Result<List<E::Part>, Refusal>
    ensures { Consumes (one_more_of most E.part_at so_far) reader.old reader.new result }
{
    match limit_passed(most, so_far.len()) {
        Some(limit) => Err(Refusal::TooMany(limit)),
        None => pushed::<E>(alloc, reader, so_far),
    }
}

/// The same, where the next token begins one.
fn one_begun<E: Element>(
    alloc: Global,
    reader: &mut Reader,
    first: Sort,
    most: Option<Most>,
    so_far: List<E::Part>,
) -> Result<List<E::Part>, Refusal>
    ensures { Consumes (one_more_at first most E.part_at so_far) reader.old reader.new result }
{
    if reader.next_is(first) {
        one_more::<E>(alloc, reader, most, so_far)
    } else {
        Err(Refusal::Syntax)
    }
}

/// The same behind a comma.
fn next_one<E: Element>(
    alloc: Global,
    reader: &mut Reader,
    first: Sort,
    most: Option<Most>,
    so_far: List<E::Part>,
) -> Result<List<E::Part>, Refusal>
    ensures { Consumes (behind_at Comma (one_more_at first most E.part_at) so_far) reader.old reader.new result }
{
    reader.take(Sort::Comma)?;
    one_begun::<E>(alloc, reader, first, most, so_far)
}

/// Reads one part or more, with commas between them. Each begins with a token of the sort `first`; a limit is passed at the
/// first token of the part that is one too many.
pub fn listed<E: Element>(
    alloc: Global,
    reader: &mut Reader,
    first: Sort,
    most: Option<Most>,
) -> Result<List<E::Part>, Refusal>
    ensures { Consumes (listed_at first most E.part_at) reader.old reader.new result }
{
    let mut parts = one_begun::<E>(alloc, reader, first, most, List::new(alloc))?;
    while reader.next_is(Sort::Comma) {
        parts = next_one::<E>(alloc, reader, first, most, parts)?;
    }
    Ok(parts)
}

/// The same, or no part.
pub fn optional_list<E: Element>(
    alloc: Global,
    reader: &mut Reader,
    first: Sort,
    most: Option<Most>,
) -> Result<List<E::Part>, Refusal>
    ensures { MayConsume (optional_list_at first most E.part_at) reader.old reader.new result }
{
    if reader.next_is(first) {
        listed::<E>(alloc, reader, first, most)
    } else {
        Ok(List::new(alloc))
    }
}

/// The same in parentheses.
pub fn parenthesized<E: Element>(
    alloc: Global,
    reader: &mut Reader,
    first: Sort,
    most: Option<Most>,
) -> Result<List<E::Part>, Refusal>
    ensures { Consumes (parenthesized_at first most E.part_at) reader.old reader.new result }
{
    reader.take(Sort::OpenParenthesis)?;
    let parts = optional_list::<E>(alloc, reader, first, most)?;
    reader.take(Sort::CloseParenthesis)?;
    Ok(parts)
}

/// Reads parts in a row, as long as the next token is of one of these sorts, with which a part begins. A limit is passed at
/// the first token of the part that is one too many.
pub fn row<E: Element>(
    alloc: Global,
    reader: &mut Reader,
    begin: &[Sort],
    most: Option<Most>,
) -> Result<List<E::Part>, Refusal>
    ensures { MayConsume (row_at begin.now most E.part_at) reader.old reader.new result }
{
    let mut parts = List::new(alloc);
    while reader.next_is_one_of(begin) {
        parts = one_more::<E>(alloc, reader, most, parts)?;
    }
    Ok(parts)
}
