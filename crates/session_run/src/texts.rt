//! The text that is printed of a session.

ghost use Rattle.std.specs.Prelude.{◌≡◌, ◌++◌, IfOk, OnOk, map};
ghost use Rattle.std.specs.String.{string_bytes};
ghost use Rattle.json_line.specs.Json.{line_of};
ghost use Rattle.report_text.specs.JournalLines.{journal_data};
ghost use Rattle.session_run.specs.Joined.{joined_texts};

use aerie_base::OutOfMemory;
use hangar_core::{Hangar, Journal};
use history_store::Store;
use report_text::journal_line;
use std::alloc::Global;
use std::mem;

/// Puts a text behind another one, or in its place where that is empty.
fn put_text(whole: &mut String, text: String) -> Result<(), OutOfMemory>
    ensures { OnOk result (string_bytes whole.new ≡ string_bytes whole.old ++ string_bytes text) }
{
    if whole.as_str().is_empty() {
        *whole = text;
        return Ok(());
    }
    whole.push_str(text.as_str())?;
    Ok(())
}

/// The texts one behind another. The first is taken over, and each other one is freed when it is copied.
fn joined(alloc: Global, texts: Vec<String>) -> Result<String, OutOfMemory>
    ensures { IfOk result (λ whole. string_bytes whole ≡ joined_texts (map string_bytes texts.items)) }
{
    let mut whole = String::new(alloc);
    for text in texts {
        put_text(&mut whole, text)?;
    }
    Ok(whole)
}

/// The line of the journal, and behind it the texts of all clients. The text of one client is held once, with the line put in front.
fn whole_text(alloc: Global, journal: &Journal, texts: Vec<String>) -> Result<String, OutOfMemory>
    ensures { IfOk result (λ text.
        string_bytes text ≡ line_of (journal_data journal.now) ++ joined_texts (map string_bytes texts.items)) }
{
    let line = journal_line(alloc, journal)?;
    let mut whole = joined(alloc, texts)?;
    whole.insert_str(0, line.as_str())?;
    Ok(whole)
}

/// The same where nothing of the session is asked for any more. The workspace, the store and the journal, in which all runs lie, are left
/// where they lie: a session is performed once in a process, which ends when the text is written, and to free them step by step would
/// take a tenth of the whole time. Where there is no memory for the text they are freed.
pub(crate) fn last_text(
    alloc: Global,
    hangar: Hangar,
    store: Store,
    journal: Journal,
    texts: Vec<String>,
) -> Result<String, OutOfMemory>
    ensures { IfOk result (λ text.
        string_bytes text ≡ line_of (journal_data journal) ++ joined_texts (map string_bytes texts.items)) }
{
    let text = whole_text(alloc, &journal, texts)?;
    mem::forget(journal);
    mem::forget(hangar);
    mem::forget(store);
    Ok(text)
}
