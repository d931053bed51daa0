//! Models of texts.

use aerie_base::Model;
use aerie_text::tokens;
use model_check::check;
use model_reader::read_model;
use std::alloc::Global;

/// The model that a text is, where it is one.
pub fn model_in(alloc: Global, text: &str) -> Option<Model> {
    if text.len() >= 4_294_967_295 {
        return None;
    }
    let tokens = tokens(alloc, text).ok()?;
    let (raw, _) = read_model(alloc, text, tokens.as_slice(), 0).ok()?;
    check(alloc, &raw).ok()
}
