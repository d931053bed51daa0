//! Lists of entries: how a reader of a language is written and proved.
//!
//! `specs/Entries.antt` has the grammar as data, as it is written and as one in which the next mark decides, and says rule by
//! rule what is read of the marks that are left: a value and the marks behind it, or where reading fails, or which limit is
//! passed and where. Here is one function for each of these definitions. Its clause says that it answers what the
//! definition reads, and reads a mark at least (`Consumes`) or maybe none (`MayConsume`), which bounds loops. A loop keeps
//! `Going`: with what was read so far, the iterations that are left give what the whole repetition gives. `proofs/Entries.antt`
//! shows that the next mark decides, and that what is read conforms to the grammar: the law of a rule is one term with
//! the shape of the rule's definition. The clause `verdict` of `read_list` is what comes of both: a list is a reading of the
//! grammar as it is written, bad syntax is at the first mark that no reading reads, and a limit is passed at a mark that
//! some reading reads.

ghost use Rattle.std.specs.Prelude.{[]};
ghost use Rattle.aerie_text.specs.declared.sorts.Sort.TheVariants.{Comma};
ghost use Rattle.readers.specs.Implements.{Consumes, MayConsume};
ghost use Rattle.readers.specs.Parsed.{behind_at};
ghost use Rattle.readers.specs.Verdicts.{IsVerdict};
ghost use Rattle.readers.specs.Entries.{written, list_rule, term_at, sign_at, signed_at, more_at, sum_at, given_at, meaning_at, entry_at, one_more_at, item_at, some_items_at, items_at, inner_at, list_at};

use crate::limits::Limit;
use crate::reader::Reader;
use crate::refusal::Refusal;
use aerie_base::{List, Name, Number};
use aerie_text::Sort;
use std::alloc::Global;

/// How many entries there may be in all.
const MOST_ENTRIES: usize = 2;

/// How many terms a sum may have.
const MOST_TERMS: usize = 2;

/// A term of a sum.
#[derive(Clone, Copy, Debug)]
pub struct Term {
    pub negative: bool,
    pub size: Number,
}

/// An entry of a list.
#[derive(Debug, Drop)]
pub struct Entry {
    pub name: Name,
    /// The terms of its sum, where one is given.
    pub sum: Option<List<Term>>,
}

#[tactic(auto, unfolding(crate::specs::Entries::term_at))]
fn read_term(reader: &mut Reader) -> Result<Term, Refusal>
    ensures { Consumes term_at reader.old reader.new result }
{
    let negative = reader.has(Sort::Minus);
    let (_at, size) = reader.number(Sort::Number)?;
    Ok(Term { negative, size })
}

/// Reads a sign, and says whether it is a minus.
#[tactic(auto, unfolding(crate::specs::Entries::sign_at))]
fn sign(reader: &mut Reader) -> Result<bool, Refusal>
    ensures { Consumes sign_at reader.old reader.new result }
{
    if reader.next_is(Sort::Plus) {
        reader.take(Sort::Plus)?;
        Ok(false)
    } else {
        reader.take(Sort::Minus)?;
        Ok(true)
    }
}

/// Reads a sign and a number.
#[tactic(auto, unfolding(crate::specs::Entries::signed_at))]
fn signed_term(reader: &mut Reader, so_far: List<Term>) -> Result<List<Term>, Refusal>
    ensures { Consumes (signed_at so_far) reader.old reader.new result }
{
    let mut terms = so_far;
    let negative = sign(reader)?;
    let (_at, size) = reader.number(Sort::Number)?;
    terms.push(Term { negative, size })?;
    Ok(terms)
}

/// Reads one more term, if there may be one.
#[tactic(auto, unfolding(crate::specs::Entries::more_at))]
fn more_terms(reader: &mut Reader, so_far: List<Term>) -> Result<List<Term>, Refusal>
    ensures { Consumes (more_at so_far) reader.old reader.new result }
{
    if so_far.len() >= MOST_TERMS {
        return Err(Refusal::TooMany(Limit::Terms));
    }
    signed_term(reader, so_far)
}

#[tactic(auto, unfolding(crate::specs::Entries::sum_at))]
fn sum(alloc: Global, reader: &mut Reader) -> Result<List<Term>, Refusal>
    ensures { Consumes sum_at reader.old reader.new result }
{
    let first = read_term(reader)?;
    let mut terms = List::new(alloc);
    terms.push(first)?;
    while reader.next_is_one_of(&[Sort::Plus, Sort::Minus]) {
        terms = more_terms(reader, terms)?;
    }
    Ok(terms)
}

#[tactic(auto, unfolding(crate::specs::Entries::given_at))]
fn read_given(alloc: Global, reader: &mut Reader) -> Result<Option<List<Term>>, Refusal>
    ensures { Consumes given_at reader.old reader.new result }
{
    reader.take(Sort::Assign)?;
    let sum = sum(alloc, reader)?;
    Ok(Some(sum))
}

#[tactic(auto, unfolding(crate::specs::Entries::meaning_at))]
fn read_meaning(alloc: Global, reader: &mut Reader) -> Result<Option<List<Term>>, Refusal>
    ensures { MayConsume meaning_at reader.old reader.new result }
{
    if reader.next_is(Sort::Assign) {
        read_given(alloc, reader)
    } else {
        Ok(None)
    }
}

/// Reads an entry, and puts it behind those so far.
#[tactic(auto, unfolding(crate::specs::Entries::entry_at))]
fn read_entry(
    alloc: Global,
    reader: &mut Reader,
    so_far: List<Entry>,
) -> Result<List<Entry>, Refusal>
    ensures { Consumes (entry_at so_far) reader.old reader.new result }
{
    let mut entries = so_far;
    let (_at, name) = reader.name(alloc)?;
    let sum = read_meaning(alloc, reader)?;
    entries.push(Entry { name, sum })?;
    Ok(entries)
}

/// Reads an entry, if there may be one more.
#[tactic(auto, unfolding(crate::specs::Entries::one_more_at))]
fn one_more(alloc: Global, reader: &mut Reader, so_far: List<Entry>) -> Result<List<Entry>, Refusal>
    ensures { Consumes (one_more_at so_far) reader.old reader.new result }
{
    if so_far.len() >= MOST_ENTRIES {
        return Err(Refusal::TooMany(Limit::Words));
    }
    read_entry(alloc, reader, so_far)
}

/// Reads an entry or a list inside the list, with room for so many lists inside one another.
#[cycle(list)]
#[tactic(auto, unfolding(crate::specs::Entries::item_at))]
fn item(
    alloc: Global,
    reader: &mut Reader,
    so_far: List<Entry>,
    room: usize,
) -> Result<List<Entry>, Refusal>
    ensures { Consumes (item_at (inner_at room) so_far) reader.old reader.new result }
{
    if reader.next_is(Sort::Name) {
        one_more(alloc, reader, so_far)
    } else {
        inner(alloc, reader, so_far, room)
    }
}

/// Reads an item behind a comma.
#[cycle(list)]
fn next_item(
    alloc: Global,
    reader: &mut Reader,
    so_far: List<Entry>,
    room: usize,
) -> Result<List<Entry>, Refusal>
    ensures { Consumes (behind_at Comma (item_at (inner_at room)) so_far) reader.old reader.new result }
{
    reader.take(Sort::Comma)?;
    item(alloc, reader, so_far, room)
}

/// Reads items with commas between them.
#[cycle(list)]
#[tactic(auto, unfolding(crate::specs::Entries::some_items_at))]
fn some_items(
    alloc: Global,
    reader: &mut Reader,
    so_far: List<Entry>,
    room: usize,
) -> Result<List<Entry>, Refusal>
    ensures { Consumes (some_items_at (inner_at room) so_far) reader.old reader.new result }
{
    let mut entries = item(alloc, reader, so_far, room)?;
    while reader.next_is(Sort::Comma) {
        entries = next_item(alloc, reader, entries, room)?;
    }
    Ok(entries)
}

/// Reads what stands in a list.
#[cycle(list)]
#[tactic(auto, unfolding(crate::specs::Entries::items_at))]
fn items(
    alloc: Global,
    reader: &mut Reader,
    so_far: List<Entry>,
    room: usize,
) -> Result<List<Entry>, Refusal>
    ensures { MayConsume (items_at (inner_at room) so_far) reader.old reader.new result }
{
    if reader.next_is_one_of(&[Sort::Name, Sort::OpenBracket]) {
        some_items(alloc, reader, so_far, room)
    } else {
        Ok(so_far)
    }
}

/// Reads a list, with room for so many lists inside one another in it.
#[cycle(list)]
#[tactic(auto, unfolding(crate::specs::Entries::list_by))]
fn list(
    alloc: Global,
    reader: &mut Reader,
    so_far: List<Entry>,
    room: usize,
) -> Result<List<Entry>, Refusal>
    ensures { Consumes (list_at room so_far) reader.old reader.new result }
{
    reader.take(Sort::OpenBracket)?;
    let entries = items(alloc, reader, so_far, room)?;
    reader.take(Sort::CloseBracket)?;
    Ok(entries)
}

/// Reads a list inside a list, with room for so many lists inside one another.
#[cycle(list)]
#[tactic(auto, unfolding(crate::specs::Entries::too_deep))]
fn inner(
    alloc: Global,
    reader: &mut Reader,
    so_far: List<Entry>,
    room: usize,
) -> Result<List<Entry>, Refusal>
    ensures { Consumes (inner_at room so_far) reader.old reader.new result }
{
    if room > 0 {
        return list(alloc, reader, so_far, room - 1);
    }
    if reader.next_is(Sort::OpenBracket) {
        Err(Refusal::TooMany(Limit::Depth))
    } else {
        Err(Refusal::Syntax)
    }
}

/// Reads a list of at most two entries in all, in which one list more may stand inside another.
pub fn read_list(alloc: Global, reader: &mut Reader) -> Result<List<Entry>, Refusal>
    ensures exact { Consumes (list_at 1 []) reader.old reader.new result }
    ensures verdict { IsVerdict written list_rule reader.old reader.new result }
{
    list(alloc, reader, List::new(alloc), 1)
}
