//! The lists of entries that show how a reader is written.

use aerie_base::List;
use aerie_text::tokens;
use readers::example::{Entry, read_list};
use readers::{Reader, Refusal};
use std::alloc::Global;

/// How many entries and terms there are.
fn counts(entries: &List<Entry>) -> (usize, usize) {
    let mut terms: usize = 0;
    for entry in entries.as_slice() {
        if let Some(sum) = &entry.sum {
            terms = terms.saturating_add(sum.len());
        }
    }
    (entries.len(), terms)
}

/// What is answered of a short text: a word, how many entries and terms were read, and how many tokens are left.
fn answer(alloc: Global, text: &str) -> (&'static str, (usize, usize), usize) {
    if text.len() >= 4_294_967_295 {
        return ("long", (0, 0), 0);
    }
    match tokens(alloc, text) {
        Ok(tokens) => {
            let mut reader = Reader::new(text, tokens.as_slice(), 0);
            let result = read_list(alloc, &mut reader);
            let left = reader.left();
            match result {
                Ok(entries) => ("read", counts(&entries), left),
                Err(Refusal::Syntax) => ("syntax", (0, 0), left),
                Err(Refusal::TooMany(limit)) => (limit.word(), (0, 0), left),
                Err(Refusal::OutOfMemory) => ("memory", (0, 0), left),
            }
        }
        Err(_) => ("tokens", (0, 0), 0),
    }
}

#[test]
fn reads_lists(rt: HostRuntime) {
    let cases = [
        ("[]", ("read", (0, 0), 0)),
        ("[a,[b=-1+2],[]]]", ("read", (2, 2), 1)),
        ("", ("syntax", (0, 0), 0)),
        ("[a", ("syntax", (0, 0), 0)),
        ("[a,]", ("syntax", (0, 0), 1)),
        ("[a=+1]", ("syntax", (0, 0), 3)),
        ("[!]", ("syntax", (0, 0), 2)),
        ("[a=1-2-3]", ("terms", (0, 0), 3)),
        ("[a,b,c]", ("words", (0, 0), 2)),
        ("[a,b,[]]", ("read", (2, 0), 0)),
        ("[[[]]]", ("depth", (0, 0), 4)),
    ];
    for (text, wanted) in cases {
        assert_eq!(&rt; answer(rt.alloc(), text), wanted, "of {text}");
    }
}
