//! A text cut into tokens.

ghost use Rattle.std.specs.Prelude.{◌≡◌, ◌≤◌, ◌<◌, ℕ, Ok, Err, MatchResult, IfErr, IfOk, All, length, drop};
ghost use Rattle.aerie_text.specs.Cut.{AreTokens, IsAtEdges, IsBadAtEdge, IsFirstBad};
ghost use Rattle.aerie_text.specs.Marks.{AreTokensWithin};
ghost use Rattle.aerie_text.specs.Tokens.{found_at, tokens_of};
ghost use Rattle.aerie_text.specs.TokenAt.{token_at};
ghost use Rattle.aerie_text.specs.declared.text_error.TextError.TheVariants.{BadToken};

use crate::gaps::gap_len;
use crate::longest::token_at;
use crate::text_error::TextError;
use crate::token::Token;
use aerie_base::List;
use std::alloc::Global;

/// The tokens of a text, in order. `BadToken` names the first place where no token begins, which is behind the white
/// space and the comments that follow the last token. It takes time linear in the text, since each byte is read a few
/// times at most, and copies no text.
pub fn tokens(alloc: Global, text: &str) -> Result<Vec<Token>, TextError>
    ensures exact { IfOk result (λ tokens. tokens_of text.now ≡ Ok tokens.items) }
    ensures cut { IfOk result (λ tokens. AreTokens text.now 0 tokens.items (length text.now)) }
    ensures edges { IfOk result (λ tokens. All (IsAtEdges text.now) tokens.items) }
    ensures within { IfOk result (λ tokens. AreTokensWithin text.now tokens.items) }
    ensures refused { (at : ℕ) → result ≡ Err (BadToken at) → tokens_of text.now ≡ Err at }
    ensures first { (at : ℕ) → result ≡ Err (BadToken at) → IsFirstBad text.now at }
    ensures edge { IfErr result (IsBadAtEdge text.now) }
{
    match token_list(alloc, text) {
        Ok(tokens) => Ok(tokens.into_vec()),
        Err(error) => Err(error),
    }
}

/// The tokens as a list.
fn token_list(alloc: Global, text: &str) -> Result<List<Token>, TextError>
    ensures exact { IfOk result (λ tokens. tokens_of text.now ≡ Ok tokens) }
    ensures cut { IfOk result (λ tokens. AreTokens text.now 0 tokens (length text.now)) }
    ensures edges { IfOk result (λ tokens. All (IsAtEdges text.now) tokens) }
    ensures within { IfOk result (λ tokens. AreTokensWithin text.now tokens) }
    ensures refused { (at : ℕ) → result ≡ Err (BadToken at) → tokens_of text.now ≡ Err at }
    ensures first { (at : ℕ) → result ≡ Err (BadToken at) → IsFirstBad text.now at }
    ensures edge { IfErr result (IsBadAtEdge text.now) }
{
    scan(alloc, text)
}

/// The tokens of a text, read one after another.
fn scan(alloc: Global, text: &str) -> Result<List<Token>, TextError>
    ensures exact { MatchResult result (λ tokens. tokens_of text.now ≡ Ok tokens) (λ e. (at : ℕ) → e ≡ BadToken at → tokens_of text.now ≡ Err at) }
{
    let bytes = text.as_bytes();
    let mut tokens = List::new(alloc);
    let mut at = 0;
    while at < bytes.len() {
        let gap = gap_len(rest_at(bytes, at));
        if 0 < gap {
            at += gap;
        } else {
            let token = token_from(bytes, at)?;
            at = token.to;
            tokens.push(token)?;
        }
    }
    Ok(tokens)
}

/// The token that begins at a place.
fn token_from(bytes: &[u8], at: usize) -> Result<Token, TextError>
    requires { at ≤ length bytes.now }
    ensures found { result ≡ found_at at (token_at (drop at bytes.now)) }
    ensures within { IfOk result (λ token. (at < token.to) × (token.to ≤ length bytes.now)) }
{
    match token_at(rest_at(bytes, at)) {
        Some((kind, len)) => Ok(Token {
            kind,
            from: at,
            to: at + len,
        }),
        None => Err(TextError::BadToken { at }),
    }
}

/// What follows a place.
fn rest_at(bytes: &[u8], at: usize) -> &[u8]
    requires { at ≤ length bytes.now }
    ensures { result.now ≡ drop at bytes.now }
{
    let (_, rest) = bytes.split_at(at);
    rest
}
