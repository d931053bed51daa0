//! Readers over the tokens of a text.

ghost use Rattle.std.specs.Prelude.{◌≡◌, ◌<◌, ◌≤◌, IfOk, drop, length, pos, true};
ghost use Rattle.std.specs.Str.{IsCharBoundary};
ghost use Rattle.aerie_base.specs.Names.{is_name};
ghost use Rattle.aerie_text.specs.Cut.{IsTokenOf};
ghost use Rattle.aerie_text.specs.Marks.{AreTokensWithin, count_of, slice_of, sort_of};
ghost use Rattle.aerie_text.specs.Places.{place_of};
ghost use Rattle.readers.specs.Implements.{Consumes, ConsumesWord};
ghost use Rattle.readers.specs.Marks.{marks_of};
ghost use Rattle.readers.specs.Parsed.{next_place, next_is, next_fits, next_is_one_of, take_at, has_at, number_at, name_at, parsed, is_sort_among};
ghost use Rattle.readers.specs.States.{AreOfFirst, BeginsFrom};
ghost use Rattle.readers.specs.Within.{counts_within, is_within, number_within_at};

use crate::lines::place_in_line;
use crate::refusal::Refusal;
use aerie_base::{Name, Number, OutOfMemory, Place};
use aerie_text::{Sort, Token, count_of, place_on, sort_of_kind};
use std::alloc::Global;
use std::marker::Model;

/// Reads the tokens of a text from the front. Contracts see the marks that are left: what each token is to a grammar. A
/// mark is made when the reader comes to its token, so that what is not read costs nothing. After a refusal the first mark
/// that is left is the one that was refused.
#[derive(Drop)]
pub struct Reader<'a> {
    text: &'a str,
    /// The tokens that are left.
    tokens: &'a [Token],
    /// The sort of the first of them; any where none is left.
    sort: Sort,
    /// The place of the first of them; any where none is left.
    at: Place,
}

impl<'a> Model for Reader<'a> {
    ghost use Rattle.std.specs.Prelude.{List};
    ghost use Rattle.readers.specs.Marks.{Mark, marks_of};
    ghost use Rattle.readers.specs.States.{StandsBefore};

    ghost Value = { List Mark };

    ghost view = { λ reader. marks_of reader.text.now reader.tokens.now };

    ghost invariant = { λ reader. StandsBefore reader.text.now reader.tokens.now reader.sort reader.at };
}

impl<'a> Reader<'a> {
    /// A reader of the tokens from the one of this number on. It counts the line feeds before that token, and reads its line.
    pub fn new(text: &'a str, tokens: &'a [Token], from: usize) -> Reader<'a>
        requires short { length text.now < 4_294_967_295 }
        requires tokens { AreTokensWithin text.now tokens.now }
        requires from { from ≤ length tokens.now }
        ensures { result ≡ marks_of text.now (drop from tokens.now) }
    {
        let (_, left) = tokens.split_at(from);
        let begin = begin_of(text, left);
        let place = place_in_line(text, begin);
        let (sort, at) = first_of(text, left, begin, place);
        Reader {
            text,
            tokens: left,
            sort,
            at,
        }
    }

    /// How many tokens are left.
    pub fn left(&self) -> usize
        ensures { result ≡ length self.now }
    {
        self.tokens.len()
    }

    /// The place of the next token, where there is one.
    pub fn place(&self) -> Option<Place>
        ensures { result ≡ next_place self.now }
    {
        match self.tokens.first() {
            Some(_) => Some(self.at),
            None => None,
        }
    }

    /// Whether the next token is of this sort.
    pub fn next_is(&self, sort: Sort) -> bool
        ensures { result ≡ next_is sort self.now }
    {
        match self.tokens.first() {
            Some(_) => sort.is(self.sort),
            None => false,
        }
    }

    /// Whether the next token is of one of these sorts.
    pub fn next_is_one_of(&self, sorts: &[Sort]) -> bool
        ensures { result ≡ next_is_one_of sorts.now self.now }
    {
        match self.tokens.first() {
            Some(_) => is_one_of(self.sort, sorts),
            None => false,
        }
    }

    /// Whether the next token is of this sort and counts from the least to the most.
    pub fn next_counts_within(&self, sort: Sort, least: u64, most: u64) -> bool
        ensures { result ≡ next_fits (counts_within sort least most) self.now }
    {
        match self.tokens.split_first() {
            Some((token, _)) => {
                let number = number_of(self.text, *token);
                sort.is(self.sort) && is_within(number, least, most)
            }
            None => false,
        }
    }

    /// Goes on behind the next token, where there is one.
    fn pass(&mut self)
        ensures { self.new ≡ drop 1 self.old }
    {
        match self.tokens.split_first() {
            Some((token, later)) => {
                let (sort, at) = first_of(self.text, later, token.from, self.at);
                self.tokens = later;
                self.sort = sort;
                self.at = at;
            }
            None => {}
        }
    }

    /// Reads the next token, which is of this sort, and gives its place.
    pub fn take(&mut self, sort: Sort) -> Result<Place, Refusal>
        ensures { Consumes (take_at sort) self.old self.new result }
    {
        match self.tokens.split_first() {
            Some((_, _)) => {
                if sort.is(self.sort) {
                    let at = self.at;
                    self.pass();
                    Ok(at)
                } else {
                    Err(Refusal::Syntax)
                }
            }
            None => Err(Refusal::Syntax),
        }
    }

    /// Reads the next token if it is of this sort.
    pub fn has(&mut self, sort: Sort) -> bool
        ensures read { has_at sort self.old ≡ parsed result self.new }
        ensures no_longer { length self.new ≤ length self.old }
    {
        if self.next_is(sort) {
            self.pass();
            true
        } else {
            false
        }
    }

    /// Reads the next token, which is of this sort, and gives its place and what it counts: a number, or a length of time in
    /// microseconds.
    pub fn number(&mut self, sort: Sort) -> Result<(Place, Number), Refusal>
        ensures { Consumes (number_at sort) self.old self.new result }
    {
        match self.tokens.split_first() {
            Some((token, _)) => {
                if sort.is(self.sort) {
                    let at = self.at;
                    let number = number_of(self.text, *token);
                    self.pass();
                    Ok((at, number))
                } else {
                    Err(Refusal::Syntax)
                }
            }
            None => Err(Refusal::Syntax),
        }
    }

    /// Reads the next token, which is of this sort and counts from the least to the most, and gives its place and what it
    /// counts.
    pub fn number_within(
        &mut self,
        sort: Sort,
        least: u64,
        most: u64,
    ) -> Result<(Place, u64), Refusal>
        ensures read { Consumes (number_within_at sort least most) self.old self.new result }
        ensures within { IfOk result (λ number. (least ≤ number.1) × (number.1 ≤ most)) }
    {
        match self.tokens.split_first() {
            Some((token, _)) => {
                let number = number_of(self.text, *token);
                if sort.is(self.sort) && is_within(number, least, most) {
                    let at = self.at;
                    self.pass();
                    Ok((at, number.get() as u64))
                } else {
                    Err(Refusal::Syntax)
                }
            }
            None => Err(Refusal::Syntax),
        }
    }

    /// Reads the next token, which is of this sort, and gives its place and its text.
    pub fn word(&mut self, sort: Sort) -> Result<(Place, &'a str), Refusal>
        ensures { ConsumesWord sort self.old self.new result }
    {
        match self.tokens.split_first() {
            Some((token, _)) => {
                if sort.is(self.sort) {
                    let at = self.at;
                    let word = word_of(self.text, *token);
                    self.pass();
                    Ok((at, word))
                } else {
                    Err(Refusal::Syntax)
                }
            }
            None => Err(Refusal::Syntax),
        }
    }

    /// Reads a name, and gives its place too. It takes memory for the name.
    pub fn name(&mut self, alloc: Global) -> Result<(Place, Name), Refusal>
        ensures { Consumes name_at self.old self.new result }
    {
        match self.tokens.split_first() {
            Some((token, _)) => {
                if Sort::Name.is(self.sort) {
                    let at = self.at;
                    let name = named(alloc, word_of(self.text, *token))?;
                    self.pass();
                    Ok((at, name))
                } else {
                    Err(Refusal::Syntax)
                }
            }
            None => Err(Refusal::Syntax),
        }
    }
}

/// Whether the sort is one of these.
#[tactic(auto, using(crate::proofs::Standing::among_first))]
fn is_one_of(sort: Sort, sorts: &[Sort]) -> bool
    ensures { result ≡ is_sort_among sorts.now sort }
{
    match sorts.split_first() {
        Some((first, others)) => first.is(sort) || is_one_of(sort, others),
        None => false,
    }
}

/// Where the first of the tokens begins; where none is left, the text.
fn begin_of(text: &str, tokens: &[Token]) -> usize
    requires { AreTokensWithin text.now tokens.now }
    ensures edge { IsCharBoundary text.now result }
    ensures first { BeginsFrom result tokens.now }
{
    match tokens.split_first() {
        Some((token, _)) => token.from,
        None => 0,
    }
}

/// The sort and the place of the first of the tokens, from the place of a byte before it. It reads the text from that byte
/// up to the token.
fn first_of(text: &str, tokens: &[Token], from: usize, place: Place) -> (Sort, Place)
    requires short { length text.now < 4_294_967_295 }
    requires tokens { AreTokensWithin text.now tokens.now }
    requires edge { IsCharBoundary text.now from }
    requires behind { BeginsFrom from tokens.now }
    requires place { place ≡ place_of text.now from }
    ensures { AreOfFirst text.now tokens.now result.0 result.1 }
{
    match tokens.split_first() {
        Some((token, _)) => {
            let sort = sort_of(text, *token);
            let at = place_on(text, from, token.from, place);
            (sort, at)
        }
        None => (Sort::Name, place),
    }
}

/// The sort of a token.
fn sort_of(text: &str, token: Token) -> Sort
    requires { IsTokenOf text.now token }
    ensures { result ≡ sort_of text.now token }
{
    sort_of_kind(token.kind, word_of(text, token))
}

/// Whether the number is from the least to the most.
fn is_within(number: Number, least: u64, most: u64) -> bool
    ensures { result ≡ is_within least most number }
{
    let number = number.get();
    number >= 0 && least <= number as u64 && number as u64 <= most
}

/// What a token counts.
fn number_of(text: &str, token: Token) -> Number
    requires { IsTokenOf text.now token }
    ensures { result ≡ pos (count_of token.kind (slice_of text.now token.from token.to)) }
{
    count_of(token.kind, word_of(text, token))
}

/// The text of a token.
fn word_of(text: &str, token: Token) -> &str
    requires { IsTokenOf text.now token }
    ensures { result.now ≡ slice_of text.now token.from token.to }
{
    &text[token.from..token.to]
}

/// The name that a text is.
fn named(alloc: Global, text: &str) -> Result<Name, OutOfMemory>
    requires { is_name text.now ≡ true }
    ensures { IfOk result (λ name. name ≡ text.now) }
{
    let name = Name::new(alloc, text)?;
    Ok(name.unwrap())
}
