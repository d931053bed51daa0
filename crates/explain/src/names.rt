//! Why a name is refused: what it names, where it stands, and what was declared before.

ghost use Rattle.std.specs.Prelude.{◌≡◌, ◌≤◌, length};
ghost use Rattle.explain.specs.Becauses.{is_among_sorts as is_listed_by};
ghost use Rattle.explain.specs.WordsOfTokens.{or_none};
ghost use Rattle.explain.specs.NameCauses.{cell_words, change_because as change_because_by, changed_because as changed_because_by, is_changed as is_changed_by, unknown_behind as unknown_behind_by, class_of_name as class_of_name_by, declared_because as declared_because_by, declaring_word, duplicate_because as duplicate_because_by, has_sort as has_sort_by, last_named as last_named_by, may_differ as may_differ_by, resource_words, twice_because as twice_because_by, type_openers, unknown_because as unknown_because_by, unknown_beside as unknown_beside_by};

use crate::becauses::{about, about_line, is_among_sorts, spot_line, token_behind};
use crate::causes::{Because, Cause};
use crate::sorted::{SortedToken, no_token, token_at, token_before, word_of};
use aerie_text::Sort;

/// The words that declare cells.
const CELL_WORDS: [Sort; 3] = [Sort::Counter, Sort::Register, Sort::Accumulator];

/// The words that declare resources.
const RESOURCE_WORDS: [Sort; 2] = [Sort::Discrete, Sort::Linear];

/// What a type of activity stands behind.
const TYPE_OPENERS: [Sort; 7] = [
    Sort::Spawn,
    Sort::Call,
    Sort::Forbid,
    Sort::Cardinality,
    Sort::Recurrence,
    Sort::Coexistence,
    Sort::In,
];

/// By which of these words the name is declared first, or an arrow where by none.
fn declared_by(words: &[Sort], bytes: &[u8], name: &[u8], tokens: &[SortedToken]) -> Sort
    ensures { result ≡ declaring_word words.now bytes.now name.now Sort.Arrow tokens.now }
{
    let mut before = Sort::Arrow;
    for token in tokens {
        if is_among_sorts(words, before) && word_of(bytes, *token) == name {
            return before;
        }
        before = token.sort;
    }
    Sort::Arrow
}

/// By which word a cell of this name is declared first, or an arrow where none is.
pub(crate) fn cell_word(bytes: &[u8], name: &[u8], tokens: &[SortedToken]) -> Sort
    ensures { result ≡ declaring_word cell_words bytes.now name.now Sort.Arrow tokens.now }
{
    declared_by(&CELL_WORDS, bytes, name, tokens)
}

/// By which word a resource of this name is declared first, or an arrow where none is.
fn resource_word(bytes: &[u8], name: &[u8], tokens: &[SortedToken]) -> Sort
    ensures { result ≡ declaring_word resource_words bytes.now name.now Sort.Arrow tokens.now }
{
    declared_by(&RESOURCE_WORDS, bytes, name, tokens)
}

/// Whether the word declares cells.
fn declares_cell(word: Sort) -> bool
    ensures { result ≡ is_listed_by cell_words word }
{
    is_among_sorts(&CELL_WORDS, word)
}

/// Whether the word declares resources.
fn declares_resource(word: Sort) -> bool
    ensures { result ≡ is_listed_by resource_words word }
{
    is_among_sorts(&RESOURCE_WORDS, word)
}

/// Whether a type of activity stands behind it.
fn opens_type(word: Sort) -> bool
    ensures { result ≡ is_listed_by type_openers word }
{
    is_among_sorts(&TYPE_OPENERS, word)
}

/// Whether a token of the sort is among them.
pub(crate) fn has_sort(sort: Sort, tokens: &[SortedToken]) -> bool
    ensures { result ≡ has_sort_by sort tokens.now }
{
    tokens.iter().any(|token| sort.is(token.sort))
}

/// Why a name is unknown, by what it is declared as.
fn declared_because(here: SortedToken, in_rules: bool, is_cell: bool, is_resource: bool) -> Because
    ensures { result ≡ declared_because_by here in_rules is_cell is_resource }
{
    if in_rules && is_cell {
        about(here, Cause::CellForResource)
    } else if is_resource {
        about(here, Cause::ResourceForCell)
    } else {
        about(here, Cause::UnknownName)
    }
}

/// Whether a statement changes what is named between the two.
pub(crate) fn is_changed(before: SortedToken, behind: SortedToken) -> bool
    ensures { result ≡ is_changed_by before behind }
{
    is_among_sorts(
        &[Sort::Semicolon, Sort::OpenBrace, Sort::CloseBrace],
        before.sort,
    ) && is_among_sorts(
        &[Sort::Assign, Sort::PlusAssign, Sort::ColonAssign, Sort::Dot],
        behind.sort,
    )
}

/// Why a change is refused, by the word that declares the cell.
pub(crate) fn change_because(here: SortedToken, word: Sort) -> Because
    ensures { result ≡ change_because_by here word }
{
    if Sort::Counter.is(word) {
        about(here, Cause::CounterChange)
    } else if Sort::Register.is(word) {
        about(here, Cause::RegisterChange)
    } else if Sort::Accumulator.is(word) {
        about(here, Cause::AccumulatorChange)
    } else {
        about(here, Cause::LocalChange)
    }
}

/// Why what is changed is unknown, by the word that declares it.
fn changed_because(here: SortedToken, word: Sort) -> Because
    ensures { result ≡ changed_because_by here word }
{
    if declares_cell(word) {
        change_because(here, word)
    } else {
        about(here, Cause::UnknownCell)
    }
}

/// Why a name is unknown, by what stands before it.
fn unknown_behind(
    bytes: &[u8],
    tokens: &[SortedToken],
    at: usize,
    before: SortedToken,
    here: SortedToken,
) -> Because
    requires { at ≤ length tokens.now }
    ensures { result ≡ unknown_behind_by bytes.now tokens.now at before here }
{
    let (earlier, _) = tokens.split_at(at);
    let name = word_of(bytes, here);
    let in_rules = has_sort(Sort::Plan, earlier);
    let is_cell = declares_cell(cell_word(bytes, name, tokens));
    let is_resource = declares_resource(resource_word(bytes, name, tokens));
    let second = token_before(tokens, at.saturating_sub(1)).sort;
    if is_among_sorts(&[Sort::From, Sort::To], before.sort) {
        about(here, Cause::UnknownModel)
    } else if Sort::Of.is(before.sort) && is_among_sorts(&[Sort::Start, Sort::End], second) {
        about(here, Cause::UnknownType)
    } else if Sort::Of.is(before.sort) {
        about(here, Cause::UnknownModel)
    } else if Sort::Keeping.is(before.sort) {
        about(here, Cause::UnknownConstraint)
    } else if is_among_sorts(&[Sort::Colon, Sort::Arrow], before.sort) && !in_rules {
        about(here, Cause::UnknownKind)
    } else {
        declared_because(here, in_rules, is_cell, is_resource)
    }
}

/// Why a name is unknown, by the tokens beside it.
fn unknown_beside(
    bytes: &[u8],
    tokens: &[SortedToken],
    at: usize,
    before: SortedToken,
    here: SortedToken,
    behind: SortedToken,
) -> Because
    requires { at ≤ length tokens.now }
    ensures { result ≡ unknown_beside_by bytes.now tokens.now at before here behind }
{
    if Sort::Dot.is(before.sort) {
        about(here, Cause::UnknownVariant)
    } else if is_changed(before, behind) {
        changed_because(here, cell_word(bytes, word_of(bytes, here), tokens))
    } else if Sort::Assign.is(behind.sort) && !Sort::Colon.is(before.sort) {
        about(here, Cause::UnknownParameter)
    } else if opens_type(before.sort) || Sort::OpenParenthesis.is(behind.sort) {
        about(here, Cause::UnknownType)
    } else {
        unknown_behind(bytes, tokens, at, before, here)
    }
}

/// Why the name at this number is unknown.
pub(crate) fn unknown_because(bytes: &[u8], tokens: &[SortedToken], at: usize) -> Because
    requires { at ≤ length tokens.now }
    ensures { result ≡ unknown_because_by bytes.now tokens.now at }
{
    unknown_beside(
        bytes,
        tokens,
        at,
        token_before(tokens, at),
        token_at(tokens, at),
        token_behind(tokens, at),
    )
}

/// What sort of name stands between two such tokens: names of one class have to differ.
fn class_of_name(before: Sort, behind: Sort) -> u8
    ensures { result ≡ class_of_name_by before behind }
{
    if is_among_sorts(
        &[
            Sort::Enum,
            Sort::Counter,
            Sort::Register,
            Sort::Accumulator,
            Sort::Activity,
        ],
        before,
    ) {
        1
    } else if is_among_sorts(&[Sort::Discrete, Sort::Linear, Sort::Load], before) {
        2
    } else if Sort::Let.is(before) {
        3
    } else if is_among_sorts(&[Sort::OpenParenthesis, Sort::Comma], before)
        && Sort::Colon.is(behind)
    {
        3
    } else if is_among_sorts(&[Sort::OpenParenthesis, Sort::Comma], before)
        && Sort::Assign.is(behind)
    {
        4
    } else if is_among_sorts(&[Sort::OpenBrace, Sort::Comma], before)
        && is_among_sorts(&[Sort::Comma, Sort::CloseBrace], behind)
    {
        5
    } else if Sort::Colon.is(behind) {
        6
    } else if Sort::Model.is(before) {
        7
    } else if Sort::Client.is(before) {
        8
    } else {
        9
    }
}

/// Whether names of the two classes have to differ.
fn may_differ(later: u8, earlier: u8) -> bool
    ensures { result ≡ may_differ_by later earlier }
{
    later == earlier || later == 3 && earlier == 1
}

/// The last of the tokens that has the name and has to differ from one of this class.
fn last_named(bytes: &[u8], name: &[u8], class: u8, tokens: &[SortedToken]) -> Option<SortedToken>
    ensures { result ≡ last_named_by bytes.now name.now class None Sort.Arrow (or_none None) tokens.now }
{
    let mut found = None;
    let mut before = Sort::Arrow;
    let mut last = no_token();
    for token in tokens {
        if may_differ(class, class_of_name(before, token.sort)) && word_of(bytes, last) == name {
            found = Some(last);
        }
        before = last.sort;
        last = *token;
    }
    found
}

/// Why a name is taken, by the first that has it.
fn twice_because(
    bytes: &[u8],
    cause: Cause,
    here: SortedToken,
    first: Option<SortedToken>,
) -> Because
    ensures { result ≡ twice_because_by bytes.now cause here first }
{
    match first {
        None => about(here, Cause::NameTaken),
        Some(first) => about_line(here, cause, spot_line(bytes, first.from)),
    }
}

/// Why the name at this number is taken.
pub(crate) fn duplicate_because(
    bytes: &[u8],
    cause: Cause,
    tokens: &[SortedToken],
    at: usize,
) -> Because
    requires { at ≤ length tokens.now }
    ensures { result ≡ duplicate_because_by bytes.now cause tokens.now at }
{
    let here = token_at(tokens, at);
    let class = class_of_name(token_before(tokens, at).sort, token_behind(tokens, at).sort);
    let (earlier, _) = tokens.split_at(at);
    twice_because(
        bytes,
        cause,
        here,
        last_named(bytes, word_of(bytes, here), class, earlier),
    )
}
