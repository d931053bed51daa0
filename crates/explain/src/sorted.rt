//! The tokens of a text, each with its sort.

ghost use Rattle.std.specs.Prelude.{◌≡◌, ◌≤◌, All, IfOk, drop, length, map, take};
ghost use Rattle.aerie_text.specs.Cut.{IsTokenOf};
ghost use Rattle.aerie_text.specs.Marks.{slice_of};
ghost use Rattle.aerie_text.specs.Tokens.{tokens_of};
ghost use Rattle.explain.specs.WordsOfTokens.{sorted_cut as sorted_cut_by, sorted_token as sorted_token_by, sorted_tokens as sorted_tokens_by, token_at_number, token_before as token_before_by, tokens_before as tokens_before_by, word_of_token};

use aerie_base::OutOfMemory;
use aerie_text::{Sort, TextError, Token, sort_of_kind, tokens};
use std::alloc::Global;

/// A token of a text, with its sort.
#[derive(Clone, Copy, Debug)]
pub struct SortedToken {
    /// What it is to a grammar.
    pub sort: Sort,
    /// The place of its first byte, counted in bytes from 0.
    pub from: usize,
    /// The place behind its last byte.
    pub to: usize,
}

/// A token with its sort.
fn sorted_token(text: &str, token: Token) -> SortedToken
    requires { IsTokenOf text.now token }
    ensures { result ≡ sorted_token_by text.now token }
{
    SortedToken {
        sort: sort_of_kind(token.kind, &text[token.from..token.to]),
        from: token.from,
        to: token.to,
    }
}

/// Tokens, each with its sort.
fn with_sorts(alloc: Global, text: &str, tokens: &[Token]) -> Result<Vec<SortedToken>, OutOfMemory>
    requires { All (IsTokenOf text.now) tokens.now }
    ensures { IfOk result (λ all. all.items ≡ map (sorted_token_by text.now) tokens.now) }
{
    let mut all = Vec::new(alloc);
    for token in tokens {
        all.push(sorted_token(text, *token))?;
    }
    Ok(all)
}

/// The tokens of a text, or none where it cannot be cut.
fn sorted_cut(alloc: Global, text: &str) -> Result<Vec<SortedToken>, OutOfMemory>
    ensures { IfOk result (λ all. all.items ≡ sorted_cut_by text.now (tokens_of text.now)) }
{
    match tokens(alloc, text) {
        Ok(tokens) => with_sorts(alloc, text, tokens.as_slice()),
        Err(TextError::BadToken { .. }) => Ok(Vec::new(alloc)),
        Err(TextError::OutOfMemory) => Err(OutOfMemory),
    }
}

/// The tokens of bytes, or none where they are no text or cannot be cut. It takes time linear in the bytes.
#[tactic(auto, unfolding(crate::specs::WordsOfTokens::sorted_tokens))]
pub(crate) fn sorted_tokens(alloc: Global, bytes: &[u8]) -> Result<Vec<SortedToken>, OutOfMemory>
    ensures { IfOk result (λ all. all.items ≡ sorted_tokens_by bytes.now) }
{
    match str::from_utf8(bytes) {
        Ok(text) => sorted_cut(alloc, text),
        Err(_) => Ok(Vec::new(alloc)),
    }
}

/// The token of this number, or else an arrow.
pub(crate) fn token_at(tokens: &[SortedToken], at: usize) -> SortedToken
    ensures { result ≡ token_at_number tokens.now at }
{
    match tokens.get(at) {
        Some(token) => *token,
        None => no_token(),
    }
}

/// An empty token at the beginning.
pub(crate) fn no_token() -> SortedToken
    ensures { result ≡ record { sort = Sort.Arrow; from = 0; to = 0 } }
{
    SortedToken {
        sort: Sort::Arrow,
        from: 0,
        to: 0,
    }
}

/// The token before the one of this number.
pub(crate) fn token_before(tokens: &[SortedToken], at: usize) -> SortedToken
    ensures { result ≡ token_before_by tokens.now at }
{
    if at == 0 {
        no_token()
    } else {
        token_at(tokens, at - 1)
    }
}

/// How many tokens stand before a byte.
pub(crate) fn tokens_before(tokens: &[SortedToken], offset: usize) -> usize
    ensures number { result ≡ tokens_before_by tokens.now offset }
    ensures within { result ≤ length tokens.now }
{
    tokens
        .iter()
        .take_while(|token| token.from < offset)
        .count()
}

/// So many bytes from a place on, as far as they go.
pub(crate) fn part_of(bytes: &[u8], from: usize, count: usize) -> &[u8]
    ensures { result.now ≡ take count (drop from bytes.now) }
{
    let (_, rest) = bytes.split_at(from.min(bytes.len()));
    let (part, _) = rest.split_at(count.min(rest.len()));
    part
}

/// The part of a text from one place up to another, as far as it goes.
pub(crate) fn between(bytes: &[u8], from: usize, to: usize) -> &[u8]
    ensures { result.now ≡ slice_of bytes.now from to }
{
    part_of(bytes, from, to.saturating_sub(from))
}

/// The text of a token.
pub(crate) fn word_of(bytes: &[u8], token: SortedToken) -> &[u8]
    ensures { result.now ≡ word_of_token bytes.now token }
{
    between(bytes, token.from, token.to)
}
