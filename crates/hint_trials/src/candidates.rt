//! Changes of a text that may mend what is refused of it.

use aerie_base::{List, OutOfMemory};
use explain::Hint;
use hint_candidates::{TextChange, changes_at, changes_of_dataset, changes_of_directive};
use refusal_text::Refusal;
use std::alloc::Global;

/// The changes that may mend what is refused so.
fn changes(
    alloc: Global,
    bytes: &[u8],
    refusal: &Refusal,
) -> Result<List<TextChange>, OutOfMemory> {
    if let Some(place) = refusal.place {
        return changes_at(alloc, bytes, refusal.name.as_str(), place);
    }
    let Some(number) = refusal.number else {
        return Ok(List::new(alloc));
    };
    match (&refusal.edit, refusal.fault) {
        (Some(edit), _) => changes_of_directive(alloc, bytes, number, edit),
        (None, Some(fault)) => changes_of_dataset(alloc, bytes, number, fault),
        (None, None) => Ok(List::new(alloc)),
    }
}

/// The same as hints that are not tried, the likeliest first.
pub(crate) fn candidates(
    alloc: Global,
    bytes: &[u8],
    refusal: &Refusal,
) -> Result<List<Hint>, OutOfMemory> {
    let mut hints = List::new(alloc);
    for change in changes(alloc, bytes, refusal)?.into_vec() {
        let TextChange { from, to, put } = change;
        hints.push(Hint { from, to, put })?;
    }
    Ok(hints)
}
