//! The text that explains a refusal.

ghost use Rattle.std.specs.Prelude.{◌≡◌, ◌++◌, ◌≤◌, IfOk, OnOk, length, string_bytes};
ghost use Rattle.explain.specs.Explaining.{cause_lines, counted as counted_by, counting_word as counting_word_by, explained, explanation_of, limit_because as limit_because_by, named_because as named_because_by, numbered_from as numbered_from_by, placed_or as placed_or_by, placeless_because as placeless_because_by, refused_from as refused_from_by, spot_of_refusal as spot_of_refusal_by, told_at_spot};

use crate::becauses::{about, of_line, plain};
use crate::causes::{Because, Cause, push_because};
use crate::edits::{fault_because, push_edit};
use crate::headlines::push_headline;
use crate::hint::Hint;
use crate::hint_lines::push_hints;
use crate::limits::limit_cause;
use crate::names::{duplicate_because, unknown_because};
use crate::sorted::{SortedToken, sorted_tokens, token_at, token_before, tokens_before};
use crate::sources::push_source;
use crate::spots::{Spot, offset_at, spot_at, spot_of_place};
use crate::syntax::syntax_because;
use crate::types::{range_because, wrong_because};
use aerie_base::{OutOfMemory, Place, Text};
use aerie_text::Sort;
use dataset_in::DatasetError;
use refusal_text::Refusal;
use std::alloc::Global;

/// Where the token of this sort begins before which so many of its sort stand.
fn numbered_from(sort: Sort, number: usize, tokens: &[SortedToken]) -> Option<usize>
    ensures { result ≡ numbered_from_by sort number tokens.now }
{
    let mut left = number;
    for token in tokens {
        if sort.is(token.sort) {
            if left == 0 {
                return Some(token.from);
            }
            left -= 1;
        }
    }
    None
}

/// What counts the parts of a text that are refused by their number.
fn counting_word(fault: Option<DatasetError>) -> Sort
    ensures { result ≡ counting_word_by fault }
{
    match fault {
        Some(_) => Sort::Load,
        None => Sort::At,
    }
}

/// The byte that is refused, by its number or by that of a directive or a dataset.
fn refused_from(
    tokens: &[SortedToken],
    at: Option<usize>,
    number: Option<u32>,
    fault: Option<DatasetError>,
) -> Option<usize>
    ensures { result ≡ refused_from_by tokens.now at number fault }
{
    match (at, number) {
        (Some(at), _) => Some(at),
        (None, Some(number)) => numbered_from(counting_word(fault), number as usize, tokens),
        (None, None) => None,
    }
}

/// The spot of a place, or else of a byte.
fn placed_or(bytes: &[u8], place: Option<Place>, at: Option<usize>) -> Option<Spot>
    ensures { result ≡ placed_or_by bytes.now place at }
{
    match (place, at) {
        (Some(place), _) => Some(spot_of_place(place)),
        (None, Some(at)) => Some(spot_at(bytes, at)),
        (None, None) => None,
    }
}

/// The spot of a refusal: its place, or that of the byte that is refused.
fn spot_of_refusal(bytes: &[u8], tokens: &[SortedToken], refusal: &Refusal) -> Option<Spot>
    ensures { result ≡ spot_of_refusal_by bytes.now tokens.now refusal.now }
{
    let from = refused_from(tokens, refusal.at, refusal.number, refusal.fault);
    placed_or(bytes, refusal.place, from)
}

/// The cause of a limit that is passed.
fn limit_because(limit: &Option<Text>) -> Because
    ensures { result ≡ limit_because_by limit.now }
{
    match limit {
        Some(word) => plain(limit_cause(word.as_str())),
        None => plain(Cause::Refused),
    }
}

/// A number as people count.
fn counted(number: Option<u32>) -> usize
    ensures { result ≡ counted_by number }
{
    match number {
        Some(number) => number as usize + 1,
        None => 0,
    }
}

/// Why a text is refused, by the name of the refusal, at a byte before which so many tokens stand.
fn named_because(
    bytes: &[u8],
    tokens: &[SortedToken],
    offset: usize,
    at: usize,
    name: &str,
    limit: &Option<Text>,
) -> Because
    requires within { offset ≤ length bytes.now }
    requires before { at ≤ length tokens.now }
    ensures { result ≡ named_because_by bytes.now tokens.now offset at name.now limit.now }
{
    if name == "Syntax" {
        syntax_because(bytes, tokens, offset, at)
    } else if name == "Unknown" {
        unknown_because(bytes, tokens, at)
    } else if name == "Duplicate" {
        duplicate_because(bytes, Cause::SecondTime, tokens, at)
    } else if name == "WrongType" {
        wrong_because(bytes, tokens, at)
    } else if name == "NotLinear" {
        about(token_at(tokens, at), Cause::NotLinear)
    } else if name == "OutOfRange" {
        range_because(token_before(tokens, at))
    } else if name == "Invalid" {
        about(token_at(tokens, at), Cause::RequireOfGoal)
    } else if name == "Start" {
        about(token_at(tokens, at), Cause::NoStart)
    } else if name == "Client" {
        duplicate_because(bytes, Cause::SameClient, tokens, at)
    } else if name == "TooMany" {
        limit_because(limit)
    } else if name == "NotText" {
        plain(Cause::NotText)
    } else {
        plain(Cause::Refused)
    }
}

/// Appends the lines that tell why.
fn push_causes(
    text: &mut String,
    bytes: &[u8],
    tokens: &[SortedToken],
    offset: usize,
    at: usize,
    refusal: &Refusal,
) -> Result<(), OutOfMemory>
    requires within { offset ≤ length bytes.now }
    requires before { at ≤ length tokens.now }
    ensures { OnOk result (string_bytes text.new ≡ string_bytes text.old ++ cause_lines bytes.now tokens.now offset at refusal.now refusal.now.edit refusal.now.fault) }
{
    let number = counted(refusal.number);
    match &refusal.edit {
        Some(edit) => {
            push_because(text, bytes, of_line(Cause::DirectiveNumber, number))?;
            push_edit(text, bytes, tokens, at, edit)
        }
        None => match refusal.fault {
            Some(fault) => {
                push_because(text, bytes, of_line(Cause::DatasetNumber, number))?;
                push_because(text, bytes, fault_because(fault))
            }
            None => {
                let name = refusal.name.as_str();
                let because = named_because(bytes, tokens, offset, at, name, &refusal.what);
                push_because(text, bytes, because)
            }
        },
    }
}

/// Why a whole text is refused.
fn placeless_because(name: &str) -> Because
    ensures { result ≡ placeless_because_by name.now }
{
    if name == "TooLarge" {
        plain(Cause::TooLarge)
    } else {
        plain(Cause::Refused)
    }
}

/// Appends the line of the text, and why it is refused.
fn push_told(
    alloc: Global,
    text: &mut String,
    bytes: &[u8],
    tokens: &[SortedToken],
    refusal: &Refusal,
    spot: Option<Spot>,
) -> Result<(), OutOfMemory>
    ensures { OnOk result (string_bytes text.new ≡ string_bytes text.old ++ told_at_spot bytes.now tokens.now refusal.now spot) }
{
    match spot {
        Some(spot) => {
            push_source(alloc, text, bytes, spot)?;
            let offset = offset_at(bytes, spot);
            let at = tokens_before(tokens, offset);
            push_causes(text, bytes, tokens, offset, at, refusal)
        }
        None => push_because(text, bytes, placeless_because(refusal.name.as_str())),
    }
}

/// Appends the whole explanation of a text with these tokens.
fn push_explained(
    alloc: Global,
    text: &mut String,
    bytes: &[u8],
    tokens: &[SortedToken],
    refusal: &Refusal,
    hints: &[Hint],
) -> Result<(), OutOfMemory>
    ensures { OnOk result (string_bytes text.new ≡ string_bytes text.old ++ explained bytes.now tokens.now refusal.now hints.now) }
{
    let spot = spot_of_refusal(bytes, tokens, refusal);
    push_headline(text, refusal.name.as_str(), spot)?;
    push_told(alloc, text, bytes, tokens, refusal, spot)?;
    push_hints(text, bytes, hints)
}

/// The text that explains why a session is refused, for whoever wrote it: what is refused and where, the line of the text with a
/// mark, why it is refused, and the changes that take the session further. It is made for every text, every refusal and all
/// changes, and takes time linear in the bytes, once more for each change.
#[tactic(auto, unfolding(crate::specs::Explaining::explanation_of))]
pub fn explanation(
    alloc: Global,
    bytes: &[u8],
    refusal: &Refusal,
    hints: &[Hint],
) -> Result<String, OutOfMemory>
    ensures exact { IfOk result (λ text. string_bytes text ≡ explanation_of bytes.now refusal.now hints.now) }
{
    let tokens = sorted_tokens(alloc, bytes)?;
    let mut text = String::new(alloc);
    push_explained(alloc, &mut text, bytes, tokens.as_slice(), refusal, hints)?;
    Ok(text)
}
