//! Datasets that are refused.

use crate::found::Proposals;
use aerie_base::{List, OutOfMemory};
use dataset_in::DatasetError;
use session_sketch::{Piece, Sheet, nth, part};
use std::alloc::Global;

/// The kinds of datasets.
const KINDS: [&str; 3] = ["whole", "truth", "linear"];

/// The offset from one on at which a text stands.
fn find(bytes: &[u8], text: &str, from: usize) -> Option<usize> {
    let sought = text.as_bytes();
    for at in from..bytes.len() {
        if part(bytes, at, at.saturating_add(sought.len())) == sought {
            return Some(at);
        }
    }
    None
}

/// The offsets of the bracket that opens a segment, counted from 0, and behind the one that closes it.
fn segment(bytes: &[u8], from: usize, which: u32) -> Option<Piece> {
    let mut at = find(bytes, "[", from)?;
    for _ in 0..which {
        at = find(bytes, "[", at.saturating_add(1))?;
    }
    let open = find(bytes, "[", at.saturating_add(1))?;
    let close = find(bytes, "]", open)?;
    Some(Piece {
        from: open,
        to: close.saturating_add(1),
    })
}

/// Adds that a segment begins at 0, or changes its place with the one in front of it.
fn other_segment(
    sheet: &Sheet,
    from: usize,
    which: u32,
    found: &mut Proposals,
) -> Result<(), OutOfMemory> {
    let Some(bad) = segment(sheet.bytes, from, which) else {
        return Ok(());
    };
    if which == 0 {
        if let Some(comma) = find(sheet.bytes, ",", bad.from) {
            return found.put(bad.from.saturating_add(1), comma, "0");
        }
    }
    let Some(before) = segment(sheet.bytes, from, which.saturating_sub(1)) else {
        return Ok(());
    };
    let exchanged = [
        part(sheet.bytes, bad.from, bad.to),
        ",".as_bytes(),
        part(sheet.bytes, before.from, before.to),
    ];
    found.put_parts(before.from, bad.to, &exchanged)
}

/// Adds that the key of the kind is called so, or that the kind is another one.
fn other_kind(sheet: &Sheet, from: usize, found: &mut Proposals) -> Result<(), OutOfMemory> {
    if let Some(key) = find(sheet.bytes, "\"type\"", from) {
        found.put(key, key.saturating_add(6), "\"kind\"")?;
    }
    if let Some(key) = find(sheet.bytes, "\"kind\":\"", from) {
        let begin = key.saturating_add(8);
        let end = find(sheet.bytes, "\"", begin).unwrap_or(begin);
        for kind in KINDS {
            found.put(begin, end, kind)?;
        }
    }
    Ok(())
}

/// The bytes with quotation marks in place of apostrophes.
fn with_quotes(alloc: Global, bytes: &[u8]) -> Result<List<u8>, OutOfMemory> {
    let mut quoted = List::new(alloc);
    for byte in bytes {
        quoted.push(if *byte == b'\'' { b'"' } else { *byte })?;
    }
    Ok(quoted)
}

/// Adds that a text in quotation marks stands in backquotes, with quotation marks inside.
pub(crate) fn in_backquotes(
    alloc: Global,
    sheet: &Sheet,
    found: &mut Proposals,
) -> Result<(), OutOfMemory> {
    let here = sheet.text(sheet.at);
    if here.len() < 2 || !here.starts_with("\"{".as_bytes()) {
        return Ok(());
    }
    let quoted = with_quotes(alloc, part(here, 1, here.len() - 1))?;
    let parts = ["`".as_bytes(), quoted.as_slice(), "`".as_bytes()];
    found.replace_parts(sheet.piece(sheet.at), &parts)
}

/// Adds what may be meant by the dataset of this number, from 0, which is refused.
pub(crate) fn dataset(
    alloc: Global,
    sheet: &Sheet,
    which: u32,
    fault: DatasetError,
    found: &mut Proposals,
) -> Result<(), OutOfMemory> {
    let load = nth(sheet, "load", which);
    let json = sheet.piece(load.saturating_add(2));
    match fault {
        DatasetError::BadSegment { number } => {
            let from = find(sheet.bytes, "\"segments\"", json.from).unwrap_or(json.to);
            other_segment(sheet, from, number, found)
        }
        _ => {
            other_kind(sheet, json.from, found)?;
            let quoted = with_quotes(alloc, part(sheet.bytes, json.from, json.to))?;
            found.replace_parts(json, &[quoted.as_slice()])
        }
    }
}
