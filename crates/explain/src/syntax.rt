//! Why no session goes on with the token at a spot, as far as the tokens beside it tell.

ghost use Rattle.std.specs.Prelude.{◌≡◌, ◌+◌, ◌^◌, ◌<◌, ◌≤◌, [], ◌∷◌, length};
ghost use Rattle.std.specs.Char.{is_ascii_digit};
ghost use Rattle.std.specs.List.{prefix_len};
ghost use Rattle.aerie_text.specs.Bytes.{is_white};
ghost use Rattle.explain.specs.Becauses.{is_among_sorts as is_among_sorts_by};
ghost use Rattle.explain.specs.SyntaxCauses.{begins_section as begins_section_by, tokens_around as tokens_around_by, brace_because as brace_because_by, bytes_because as bytes_because_by, digits_because as digits_because_by, ended_because as ended_because_by, is_bare_call as is_bare_call_by, is_fraction as is_fraction_by, is_glued as is_glued_by, is_grouped as is_grouped_by, is_plan_head as is_plan_head_by, is_reserved_word as is_reserved_word_by, is_unit as is_unit_by, is_unnamed as is_unnamed_by, is_without_arguments as is_without_arguments_by, is_year as is_year_by, lacking_because as lacking_because_by, literal_sorts, name_closers, name_openers, open_brace as open_brace_by, outside_because as outside_because_by, part_because as part_because_by, part_ends, part_openers, reserved_because as reserved_because_by, rest_because as rest_because_by, section_heads, section_words, sign_because as sign_because_by, stands_at as stands_at_by, statement_ends, syntax_because as syntax_because_by, test_openers, token_because as token_because_by, uncut_because as uncut_because_by, unexpected_because as unexpected_because_by, value_openers, value_words, wants_name as wants_name_by};

use crate::becauses::{
    about, about_line, across, is_among_sorts, is_letter_word, of_line, plain, spot_line,
    token_behind,
};
use crate::causes::{Because, Cause};
use crate::names::has_sort;
use crate::sorted::{SortedToken, part_of, token_at, token_before, word_of};
use crate::sources::{is_letter, word_len};
use aerie_text::Sort;

/// The tokens around one.
#[derive(Clone, Copy)]
pub struct Beside {
    /// The sort of the fourth token before it.
    pub fourth: Sort,
    /// The sort of the third token before it.
    pub third: Sort,
    /// The sort of the second token before it.
    pub second: Sort,
    /// The token before it.
    pub before: SortedToken,
    /// The token.
    pub here: SortedToken,
    /// The token behind it.
    pub behind: SortedToken,
}

/// What a name stands behind.
const NAME_OPENERS: [Sort; 30] = [
    Sort::Enum,
    Sort::Counter,
    Sort::Register,
    Sort::Accumulator,
    Sort::Discrete,
    Sort::Linear,
    Sort::Activity,
    Sort::Model,
    Sort::Plan,
    Sort::Client,
    Sort::Let,
    Sort::Spawn,
    Sort::Call,
    Sort::For,
    Sort::Forbid,
    Sort::Of,
    Sort::New,
    Sort::Fork,
    Sort::Drop,
    Sort::Add,
    Sort::Remove,
    Sort::Set,
    Sort::Show,
    Sort::Simulate,
    Sort::Schedule,
    Sort::Expand,
    Sort::Merge,
    Sort::Load,
    Sort::Keeping,
    Sort::Dot,
];

/// What a value stands behind.
const VALUE_OPENERS: [Sort; 26] = [
    Sort::Assign,
    Sort::PlusAssign,
    Sort::ColonAssign,
    Sort::Plus,
    Sort::Minus,
    Sort::Star,
    Sort::Slash,
    Sort::Percent,
    Sort::DoubleEqual,
    Sort::NotEqual,
    Sort::Less,
    Sort::LessEqual,
    Sort::Greater,
    Sort::GreaterEqual,
    Sort::DoubleAmpersand,
    Sort::DoubleBar,
    Sort::Exclamation,
    Sort::OpenParenthesis,
    Sort::If,
    Sort::While,
    Sort::Until,
    Sort::Delay,
    Sort::Require,
    Sort::And,
    Sort::Or,
    Sort::Not,
];

/// The words that begin a section, or a part of a model.
const SECTION_WORDS: [Sort; 14] = [
    Sort::Model,
    Sort::Plan,
    Sort::Client,
    Sort::Constraints,
    Sort::Goals,
    Sort::From,
    Sort::Activity,
    Sort::Daemon,
    Sort::Enum,
    Sort::Counter,
    Sort::Register,
    Sort::Accumulator,
    Sort::Discrete,
    Sort::Linear,
];

/// What a statement may end with, before its semicolon.
const STATEMENT_ENDS: [Sort; 14] = [
    Sort::Name,
    Sort::Number,
    Sort::Time,
    Sort::True,
    Sort::False,
    Sort::Quoted,
    Sort::Raw,
    Sort::CloseParenthesis,
    Sort::CloseBracket,
    Sort::Volume,
    Sort::Rate,
    Sort::Conflicted,
    Sort::Rollback,
    Sort::Return,
];

/// What stands before the first name of a part.
const PART_OPENERS: [Sort; 5] = [
    Sort::OpenBrace,
    Sort::CloseBrace,
    Sort::OpenParenthesis,
    Sort::Comma,
    Sort::Semicolon,
];

/// What stands behind the first name of a part.
const NAME_CLOSERS: [Sort; 4] = [
    Sort::Colon,
    Sort::Assign,
    Sort::PlusAssign,
    Sort::ColonAssign,
];

/// The words that begin a section.
const SECTION_HEADS: [Sort; 8] = [
    Sort::Model,
    Sort::From,
    Sort::Plan,
    Sort::Load,
    Sort::Constraints,
    Sort::Goals,
    Sort::Sequence,
    Sort::Client,
];

/// What a truth stands behind in a statement.
const TEST_OPENERS: [Sort; 7] = [
    Sort::If,
    Sort::While,
    Sort::Until,
    Sort::Require,
    Sort::DoubleAmpersand,
    Sort::DoubleBar,
    Sort::Exclamation,
];

/// The words of declarations that have a value behind `=`.
const VALUE_WORDS: [Sort; 5] = [
    Sort::Counter,
    Sort::Accumulator,
    Sort::Discrete,
    Sort::Linear,
    Sort::Let,
];

/// What a literal begins with.
const LITERAL_SORTS: [Sort; 6] = [
    Sort::Number,
    Sort::Time,
    Sort::True,
    Sort::False,
    Sort::Minus,
    Sort::Quoted,
];

/// What ends a part.
const PART_ENDS: [Sort; 3] = [Sort::Semicolon, Sort::OpenBrace, Sort::CloseBrace];

/// Whether a name stands behind it.
fn opens_name(sort: Sort) -> bool
    ensures { result ≡ is_among_sorts_by name_openers sort }
{
    is_among_sorts(&NAME_OPENERS, sort)
}

/// Whether a value stands behind it.
fn opens_value(sort: Sort) -> bool
    ensures { result ≡ is_among_sorts_by value_openers sort }
{
    is_among_sorts(&VALUE_OPENERS, sort)
}

/// Whether it begins a section, or a part of a model.
fn is_section_word(sort: Sort) -> bool
    ensures { result ≡ is_among_sorts_by section_words sort }
{
    is_among_sorts(&SECTION_WORDS, sort)
}

/// Whether a statement may end with it, before its semicolon.
fn ends_statement(sort: Sort) -> bool
    ensures { result ≡ is_among_sorts_by statement_ends sort }
{
    is_among_sorts(&STATEMENT_ENDS, sort)
}

/// Whether the first name of a part may stand behind it.
fn opens_part(sort: Sort) -> bool
    ensures { result ≡ is_among_sorts_by part_openers sort }
{
    is_among_sorts(&PART_OPENERS, sort)
}

/// Whether it may stand behind the first name of a part.
fn closes_name(sort: Sort) -> bool
    ensures { result ≡ is_among_sorts_by name_closers sort }
{
    is_among_sorts(&NAME_CLOSERS, sort)
}

/// Whether it ends a part.
fn ends_part(sort: Sort) -> bool
    ensures { result ≡ is_among_sorts_by part_ends sort }
{
    is_among_sorts(&PART_ENDS, sort)
}

/// Whether the three are a number with a fraction.
fn is_fraction(before: SortedToken, here: SortedToken, behind: SortedToken) -> bool
    ensures { result ≡ is_fraction_by before here behind }
{
    is_among_sorts(&[Sort::Number, Sort::Time], before.sort)
        && Sort::Dot.is(here.sort)
        && is_among_sorts(&[Sort::Number, Sort::Time], behind.sort)
}

/// Whether the two are a duration with letters or digits directly behind it.
fn is_glued(bytes: &[u8], before: SortedToken, here: SortedToken) -> bool
    ensures { result ≡ is_glued_by bytes.now before here }
{
    Sort::Time.is(before.sort)
        && before.to == here.from
        && (is_letter_word(bytes, here) || is_among_sorts(&[Sort::Number, Sort::Time], here.sort))
}

/// Whether the three are a comma with digits on both sides.
fn is_grouped(before: SortedToken, here: SortedToken, behind: SortedToken) -> bool
    ensures { result ≡ is_grouped_by before here behind }
{
    Sort::Number.is(before.sort)
        && Sort::Comma.is(here.sort)
        && Sort::Number.is(behind.sort)
        && before.to == here.from
        && here.to == behind.from
}

/// Whether the token is a reserved word.
fn is_reserved_word(bytes: &[u8], token: SortedToken) -> bool
    ensures { result ≡ is_reserved_word_by bytes.now token }
{
    is_letter_word(bytes, token) && !Sort::Name.is(token.sort)
}

/// Whether a name stands between the two.
fn wants_name(before: SortedToken, behind: SortedToken) -> bool
    ensures { result ≡ wants_name_by before behind }
{
    opens_name(before.sort)
        || opens_part(before.sort) && closes_name(behind.sort)
        || is_among_sorts(&[Sort::OpenBrace, Sort::Comma], before.sort)
            && is_among_sorts(&[Sort::Comma, Sort::CloseBrace], behind.sort)
}

/// The last brace of the first so many tokens that none of them closes.
#[tactic(auto, using(crate::proofs::Braces::closed_step, crate::proofs::Braces::found_step, crate::proofs::Braces::opened_step, crate::proofs::Braces::other_step, crate::proofs::Braces::none_step))]
fn open_brace(tokens: &[SortedToken], count: usize) -> Option<SortedToken>
    ensures { result ≡ open_brace_by tokens.now 0 count }
{
    let mut depth: usize = 0;
    let mut left = count;
    while 0 < left {
        left -= 1;
        let token = token_at(tokens, left);
        if Sort::CloseBrace.is(token.sort) {
            depth += 1;
        } else if Sort::OpenBrace.is(token.sort) {
            if depth == 0 {
                return Some(token);
            }
            depth -= 1;
        }
    }
    None
}

/// Whether a section begins here.
fn begins_section(it: Beside) -> bool
    ensures { result ≡ begins_section_by it }
{
    is_section_word(it.here.sort) && ends_part(it.before.sort)
        || Sort::OpenBrace.is(it.here.sort)
            && (is_among_sorts(
                &[Sort::Constraints, Sort::Goals, Sort::Sequence],
                it.before.sort,
            ) || Sort::Client.is(it.second))
}

/// The tokens around the one of this number.
fn tokens_around(tokens: &[SortedToken], at: usize) -> Beside
    requires { at ≤ length tokens.now }
    ensures { result ≡ tokens_around_by tokens.now at }
{
    Beside {
        fourth: token_before(tokens, at.saturating_sub(3)).sort,
        third: token_before(tokens, at.saturating_sub(2)).sort,
        second: token_before(tokens, at.saturating_sub(1)).sort,
        before: token_before(tokens, at),
        here: token_at(tokens, at),
        behind: token_behind(tokens, at),
    }
}

/// Why a token is refused of which nothing more is known.
fn unexpected_because(bytes: &[u8], it: Beside) -> Because
    ensures { result ≡ unexpected_because_by bytes.now it }
{
    if opens_name(it.before.sort) {
        return about(it.here, Cause::NameWanted);
    }
    if opens_value(it.before.sort) {
        return about(it.here, Cause::ValueWanted);
    }
    let line = spot_line(bytes, it.before.to);
    if ends_statement(it.before.sort) && line < spot_line(bytes, it.here.from) {
        return about_line(it.here, Cause::MissingSemicolon, line);
    }
    about(it.here, Cause::Unexpected)
}

/// Why a name at the beginning of a part is refused.
fn part_because(tokens: &[SortedToken], at: usize, it: Beside) -> Because
    requires { at ≤ length tokens.now }
    ensures { result ≡ part_because_by tokens.now at it }
{
    let (earlier, _) = tokens.split_at(at);
    if has_sort(Sort::Client, earlier) {
        about(it.here, Cause::NoCommand)
    } else if has_sort(Sort::Plan, earlier) {
        plain(Cause::DirectiveAt)
    } else {
        about(it.here, Cause::NoPart)
    }
}

/// Whether it begins a section.
fn heads_section(sort: Sort) -> bool
    ensures { result ≡ is_among_sorts_by section_heads sort }
{
    is_among_sorts(&SECTION_HEADS, sort)
}

/// Why a token is refused outside all braces.
fn outside_because(bytes: &[u8], it: Beside) -> Because
    ensures { result ≡ outside_because_by bytes.now it }
{
    if Sort::CloseBrace.is(it.here.sort) {
        plain(Cause::ClosesNothing)
    } else if heads_section(it.here.sort) {
        about(it.here, Cause::SectionOrder)
    } else if Sort::Name.is(it.here.sort)
        && is_among_sorts(
            &[Sort::CloseBrace, Sort::Semicolon, Sort::Arrow],
            it.before.sort,
        )
    {
        about(it.here, Cause::NoSection)
    } else {
        unexpected_because(bytes, it)
    }
}

/// Why a token is refused, by the brace that is open there.
fn brace_because(
    bytes: &[u8],
    tokens: &[SortedToken],
    at: usize,
    it: Beside,
    brace: Option<SortedToken>,
) -> Because
    requires { at ≤ length tokens.now }
    ensures { result ≡ brace_because_by bytes.now tokens.now at it brace }
{
    match brace {
        None => outside_because(bytes, it),
        Some(brace) => {
            if begins_section(it) {
                of_line(Cause::OpenBrace, spot_line(bytes, brace.from))
            } else if Sort::Name.is(it.here.sort) && ends_part(it.before.sort) {
                part_because(tokens, at, it)
            } else {
                unexpected_because(bytes, it)
            }
        }
    }
}

/// Why a token is refused that is a reserved word or not.
fn reserved_because(bytes: &[u8], tokens: &[SortedToken], at: usize, it: Beside) -> Because
    requires { at ≤ length tokens.now }
    ensures { result ≡ reserved_because_by bytes.now tokens.now at it }
{
    if is_reserved_word(bytes, it.here) && wants_name(it.before, it.behind) {
        about(it.here, Cause::ReservedName)
    } else if is_reserved_word(bytes, it.here) && opens_value(it.before.sort) {
        about(it.here, Cause::ReservedValue)
    } else {
        brace_because(bytes, tokens, at, it, open_brace(tokens, at))
    }
}

/// Whether a literal begins with it.
fn begins_literal(sort: Sort) -> bool
    ensures { result ≡ is_among_sorts_by literal_sorts sort }
{
    is_among_sorts(&LITERAL_SORTS, sort)
}

/// Whether an argument is given without its name.
fn is_unnamed(it: Beside) -> bool
    ensures { result ≡ is_unnamed_by it }
{
    Sort::OpenParenthesis.is(it.before.sort)
        && Sort::Name.is(it.second)
        && begins_literal(it.here.sort)
        || is_among_sorts(&[Sort::Comma, Sort::CloseParenthesis], it.here.sort)
            && Sort::Name.is(it.before.sort)
            && Sort::OpenParenthesis.is(it.second)
            && Sort::Name.is(it.third)
        || Sort::Colon.is(it.here.sort)
            && Sort::Name.is(it.before.sort)
            && is_among_sorts(&[Sort::OpenParenthesis, Sort::Comma], it.second)
}

/// Whether an activity is named where a statement or a directive begins.
fn is_bare_call(it: Beside) -> bool
    ensures { result ≡ is_bare_call_by it }
{
    Sort::OpenParenthesis.is(it.here.sort) && Sort::Name.is(it.before.sort) && ends_part(it.second)
}

/// Whether an activity is named with nothing behind it.
fn is_without_arguments(it: Beside) -> bool
    ensures { result ≡ is_without_arguments_by it }
{
    Sort::Semicolon.is(it.here.sort)
        && Sort::Name.is(it.before.sort)
        && is_among_sorts(
            &[Sort::Spawn, Sort::Call, Sort::Time, Sort::Quoted],
            it.second,
        )
}

/// Whether a plan begins otherwise than it has to.
fn is_plan_head(it: Beside) -> bool
    ensures { result ≡ is_plan_head_by it }
{
    Sort::OpenBrace.is(it.before.sort) && Sort::Plan.is(it.third)
        || Sort::Semicolon.is(it.before.sort)
            && Sort::Quoted.is(it.second)
            && Sort::Start.is(it.third)
}

/// Why a part is refused that lacks something.
fn lacking_because(bytes: &[u8], tokens: &[SortedToken], at: usize, it: Beside) -> Because
    requires { at ≤ length tokens.now }
    ensures { result ≡ lacking_because_by bytes.now tokens.now at it }
{
    let (earlier, _) = tokens.split_at(at);
    if Sort::Assign.is(it.here.sort) && Sort::Register.is(it.second) {
        about(it.before, Cause::RegisterType)
    } else if Sort::Semicolon.is(it.here.sort) && Sort::Accumulator.is(it.fourth) {
        plain(Cause::AccumulatorRate)
    } else if is_without_arguments(it) {
        about(it.before, Cause::MissingParentheses)
    } else if is_bare_call(it) && has_sort(Sort::Plan, earlier) {
        plain(Cause::DirectiveAt)
    } else if is_bare_call(it) {
        about(it.before, Cause::CallWord)
    } else if is_unnamed(it) && Sort::Activity.is(it.fourth) {
        about(it.before, Cause::ParameterType)
    } else if is_unnamed(it) {
        plain(Cause::NamedArgument)
    } else {
        reserved_because(bytes, tokens, at, it)
    }
}

/// Whether a truth stands behind it in a statement.
fn opens_test(sort: Sort) -> bool
    ensures { result ≡ is_among_sorts_by test_openers sort }
{
    is_among_sorts(&TEST_OPENERS, sort)
}

/// Whether what it declares has a value behind `=`.
fn declares_value(sort: Sort) -> bool
    ensures { result ≡ is_among_sorts_by value_words sort }
{
    is_among_sorts(&VALUE_WORDS, sort)
}

/// Whether it is one of the words by which operators are written in rules.
fn is_word_operator(sort: Sort) -> bool
    ensures { result ≡ is_among_sorts_by (Sort.And ∷ Sort.Or ∷ Sort.Not ∷ []) sort }
{
    is_among_sorts(&[Sort::And, Sort::Or, Sort::Not], sort)
}

/// Whether it is one of the signs by which the same operators are written in a model.
fn is_sign_operator(sort: Sort) -> bool
    ensures { result ≡ is_among_sorts_by (Sort.DoubleAmpersand ∷ Sort.DoubleBar ∷ Sort.Exclamation ∷ []) sort }
{
    is_among_sorts(
        &[Sort::DoubleAmpersand, Sort::DoubleBar, Sort::Exclamation],
        sort,
    )
}

/// Why a sign or a word is refused that stands in place of another.
fn sign_because(bytes: &[u8], tokens: &[SortedToken], at: usize, it: Beside) -> Because
    requires { at ≤ length tokens.now }
    ensures { result ≡ sign_because_by bytes.now tokens.now at it }
{
    let (earlier, _) = tokens.split_at(at);
    if is_word_operator(it.here.sort)
        && !has_sort(Sort::Plan, earlier)
        && !opens_name(it.before.sort)
    {
        about(it.here, Cause::WordOperator)
    } else if is_sign_operator(it.here.sort) && has_sort(Sort::Plan, earlier) {
        about(it.here, Cause::SignOperator)
    } else if Sort::Else.is(it.before.sort) && Sort::If.is(it.here.sort) {
        plain(Cause::ElseIf)
    } else if Sort::Wait.is(it.before.sort) {
        plain(Cause::WaitUntil)
    } else if Sort::Assign.is(it.here.sort) && opens_test(it.second) {
        plain(Cause::CompareWanted)
    } else if is_among_sorts(&[Sort::ColonAssign, Sort::DoubleEqual], it.here.sort)
        && declares_value(it.second)
    {
        about(it.here, Cause::DeclaredByEqual)
    } else {
        lacking_because(bytes, tokens, at, it)
    }
}

/// Whether the word is a unit of time.
fn is_unit(word: &[u8]) -> bool
    ensures { result ≡ is_unit_by word.now }
{
    word == "d".as_bytes()
        || word == "h".as_bytes()
        || word == "min".as_bytes()
        || word == "s".as_bytes()
        || word == "ms".as_bytes()
        || word == "us".as_bytes()
}

/// Whether a duration stands behind it, and no number.
fn opens_time(sort: Sort) -> bool
    ensures { result ≡ is_among_sorts_by (Sort.At ∷ Sort.Duration ∷ Sort.Every ∷ []) sort }
{
    is_among_sorts(&[Sort::At, Sort::Duration, Sort::Every], sort)
}

/// Why a token is refused, by those beside it.
fn token_because(bytes: &[u8], tokens: &[SortedToken], at: usize, it: Beside) -> Because
    requires { at ≤ length tokens.now }
    ensures { result ≡ token_because_by bytes.now tokens.now at it }
{
    if is_fraction(it.before, it.here, it.behind) {
        across(it.before, it.behind, Cause::Fraction)
    } else if is_glued(bytes, it.before, it.here) {
        across(it.before, it.here, Cause::BadUnit)
    } else if is_grouped(it.before, it.here, it.behind) {
        plain(Cause::GroupedDigits)
    } else if Sort::Number.is(it.before.sort) && is_unit(word_of(bytes, it.here)) {
        across(it.before, it.here, Cause::SpacedUnit)
    } else if Sort::Number.is(it.here.sort) && opens_time(it.before.sort) {
        about(it.here, Cause::NoUnit)
    } else if Sort::Number.is(it.before.sort) && Sort::Of.is(it.second) {
        plain(Cause::AnchorTime)
    } else if Sort::Start.is(it.before.sort) && Sort::OpenBrace.is(it.second) {
        plain(Cause::StartText)
    } else if is_plan_head(it) {
        plain(Cause::PlanBegins)
    } else {
        sign_because(bytes, tokens, at, it)
    }
}

/// Why a text ends too early, by the brace that is open.
fn ended_because(bytes: &[u8], brace: Option<SortedToken>) -> Because
    ensures { result ≡ ended_because_by bytes.now brace }
{
    match brace {
        None => plain(Cause::EndsTooEarly),
        Some(brace) => of_line(Cause::OpenBrace, spot_line(bytes, brace.from)),
    }
}

/// A cause whose sentence names so many bytes from a place on.
fn bytes_because(from: usize, count: usize, cause: Cause) -> Because
    requires { from + count < 2 ^ 64 }
    ensures { result ≡ bytes_because_by from count cause }
{
    Because {
        cause,
        from,
        to: from + count,
        number: 0,
    }
}

/// How many digits stand in front.
fn digit_len(bytes: &[u8]) -> usize
    ensures { result ≡ prefix_len is_ascii_digit bytes.now }
{
    bytes
        .iter()
        .take_while(|byte| byte.is_ascii_digit())
        .count()
}

/// Whether it is a space, a tab, a line feed or a carriage return.
fn is_white(byte: u8) -> bool
    ensures { result ≡ is_white byte }
{
    matches!(byte, b' ' | b'\t' | b'\n' | b'\r')
}

/// Whether four digits stand in front of a dash, as an instant begins.
fn is_year(rest: &[u8]) -> bool
    ensures { result ≡ is_year_by rest.now }
{
    digit_len(rest) == 4 && part_of(rest, 4, 1) == "-".as_bytes()
}

/// Why digits begin no number.
fn digits_because(offset: usize, rest: &[u8]) -> Because
    requires { offset + length rest.now < 2 ^ 64 }
    ensures { result ≡ digits_because_by offset rest.now }
{
    let len = word_len(rest);
    if is_year(rest) {
        plain(Cause::StartText)
    } else if len == digit_len(rest) {
        bytes_because(offset, len, Cause::LongNumber)
    } else {
        bytes_because(offset, len, Cause::BadUnit)
    }
}

/// Why no token begins at a place, by what stands there.
fn uncut_because(offset: usize, first: u8, rest: &[u8]) -> Because
    requires fits { offset + length rest.now < 2 ^ 64 }
    requires some { 0 < length rest.now }
    ensures { result ≡ uncut_because_by offset first rest.now }
{
    if is_white(first) {
        plain(Cause::MoreExpected)
    } else if first.is_ascii_digit() {
        digits_because(offset, rest)
    } else if is_letter(first) {
        plain(Cause::LongWord)
    } else if first == b'"' {
        plain(Cause::OpenQuote)
    } else if first == b'`' {
        plain(Cause::OpenBackquote)
    } else if offset == 0 && first == 239 {
        plain(Cause::ByteOrderMark)
    } else {
        bytes_because(offset, 1, Cause::NoToken)
    }
}

/// Why a text is refused where no token stands.
fn rest_because(bytes: &[u8], tokens: &[SortedToken], offset: usize, rest: &[u8]) -> Because
    requires { offset + length rest.now < 2 ^ 64 }
    ensures { result ≡ rest_because_by bytes.now tokens.now offset rest.now }
{
    match rest.split_first() {
        None => ended_because(bytes, open_brace(tokens, tokens.len())),
        Some((first, _)) => uncut_because(offset, *first, rest),
    }
}

/// Whether the token of this number begins at the byte.
fn stands_at(tokens: &[SortedToken], at: usize, offset: usize) -> bool
    ensures { result ≡ stands_at_by tokens.now at offset }
{
    at < tokens.len() && token_at(tokens, at).from == offset
}

/// Why no session goes on at a byte, before which so many tokens stand.
pub(crate) fn syntax_because(
    bytes: &[u8],
    tokens: &[SortedToken],
    offset: usize,
    at: usize,
) -> Because
    requires within { offset ≤ length bytes.now }
    requires before { at ≤ length tokens.now }
    ensures { result ≡ syntax_because_by bytes.now tokens.now offset at }
{
    if stands_at(tokens, at, offset) {
        token_because(bytes, tokens, at, tokens_around(tokens, at))
    } else {
        let (_, rest) = bytes.split_at(offset);
        rest_because(bytes, tokens, offset, rest)
    }
}
