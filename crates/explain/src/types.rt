//! Why a value, a name or a statement is of another type or kind than its place wants, and why a number is out of its range.

ghost use Rattle.std.specs.Prelude.{◌≡◌, ◌≤◌, length};
ghost use Rattle.explain.specs.Becauses.{is_among_sorts as is_listed_by};
ghost use Rattle.explain.specs.TypeCauses.{behind_declared as behind_declared_by, is_argument_given as is_given_by, lacking as lacking_by, missing_because as missing_because_by, missing_parameter as missing_parameter_by, number_openers, range_because as range_because_by, truth_openers, typed_because as typed_because_by, wrong_because as wrong_because_by, wrong_beside as wrong_beside_by};
ghost use Rattle.explain.specs.WordsOfTokens.{or_none};

use crate::becauses::{about, is_among_sorts, plain, token_behind};
use crate::causes::{Because, Cause};
use crate::names::{cell_word, change_because, is_changed};
use crate::sorted::{SortedToken, no_token, token_at, token_before, word_of};
use aerie_text::Sort;

/// What a truth stands behind.
const TRUTH_OPENERS: [Sort; 10] = [
    Sort::If,
    Sort::While,
    Sort::Until,
    Sort::Require,
    Sort::DoubleAmpersand,
    Sort::DoubleBar,
    Sort::Exclamation,
    Sort::Not,
    Sort::And,
    Sort::Or,
];

/// What a whole number stands behind.
const NUMBER_OPENERS: [Sort; 11] = [
    Sort::Plus,
    Sort::Minus,
    Sort::Star,
    Sort::Slash,
    Sort::Percent,
    Sort::Less,
    Sort::LessEqual,
    Sort::Greater,
    Sort::GreaterEqual,
    Sort::Delay,
    Sort::PlusAssign,
];

/// Whether an argument of this name is given among the tokens, up to a semicolon.
pub(crate) fn is_argument_given(bytes: &[u8], name: &[u8], tokens: &[SortedToken]) -> bool
    ensures { result ≡ is_given_by bytes.now name.now (or_none None) tokens.now }
{
    let mut last = no_token();
    for token in tokens {
        if Sort::Semicolon.is(token.sort) {
            return false;
        }
        if Sort::Assign.is(token.sort) && word_of(bytes, last) == name {
            return true;
        }
        last = *token;
    }
    false
}

/// The parameter, where it is not given.
fn lacking(
    bytes: &[u8],
    call: &[SortedToken],
    parameter: Option<SortedToken>,
) -> Option<SortedToken>
    ensures { result ≡ lacking_by bytes.now call.now parameter }
{
    match parameter {
        None => None,
        Some(parameter) => {
            if is_argument_given(bytes, word_of(bytes, parameter), call) {
                None
            } else {
                Some(parameter)
            }
        }
    }
}

/// The first parameter that is neither given nor has a default.
fn missing_parameter(
    bytes: &[u8],
    call: &[SortedToken],
    parameters: &[SortedToken],
) -> Option<SortedToken>
    ensures { result ≡ missing_parameter_by bytes.now call.now None (or_none None) parameters.now }
{
    let mut pending = None;
    let mut last = no_token();
    for token in parameters {
        if Sort::Colon.is(token.sort) {
            pending = Some(last);
        } else if Sort::Assign.is(token.sort) {
            pending = None;
        } else if Sort::Comma.is(token.sort) {
            if let Some(parameter) = lacking(bytes, call, pending) {
                return Some(parameter);
            }
            pending = None;
        } else if Sort::CloseParenthesis.is(token.sort) {
            return lacking(bytes, call, pending);
        }
        last = *token;
    }
    None
}

/// What stands behind the name of an activity type where it is declared.
fn behind_declared<'a>(bytes: &[u8], name: &[u8], tokens: &'a [SortedToken]) -> &'a [SortedToken]
    ensures { result.now ≡ behind_declared_by bytes.now name.now Sort.Arrow tokens.now }
{
    let mut before = Sort::Arrow;
    for (i, token) in tokens.iter().enumerate() {
        if Sort::Activity.is(before) && word_of(bytes, *token) == name {
            let (_, later) = tokens.split_at(i + 1);
            return later;
        }
        before = token.sort;
    }
    &[]
}

/// Why a call is refused, by the parameter that is not given.
fn missing_because(here: SortedToken, parameter: Option<SortedToken>) -> Because
    ensures { result ≡ missing_because_by here parameter }
{
    match parameter {
        None => about(here, Cause::OtherType),
        Some(parameter) => about(parameter, Cause::MissingArgument),
    }
}

/// Whether a truth stands behind it.
fn opens_truth(sort: Sort) -> bool
    ensures { result ≡ is_listed_by truth_openers sort }
{
    is_among_sorts(&TRUTH_OPENERS, sort)
}

/// Whether a whole number stands behind it.
fn opens_number(sort: Sort) -> bool
    ensures { result ≡ is_listed_by number_openers sort }
{
    is_among_sorts(&NUMBER_OPENERS, sort)
}

/// Why a value is refused, by what stands before it.
fn typed_because(before: SortedToken, here: SortedToken) -> Because
    ensures { result ≡ typed_because_by before here }
{
    if opens_truth(before.sort) {
        about(here, Cause::TruthWanted)
    } else if opens_number(before.sort) {
        about(here, Cause::NumberWanted)
    } else if is_among_sorts(&[Sort::True, Sort::False], here.sort) {
        about(here, Cause::TruthGiven)
    } else if is_among_sorts(&[Sort::Number, Sort::Time, Sort::Minus], here.sort) {
        about(here, Cause::NumberGiven)
    } else {
        about(here, Cause::OtherType)
    }
}

/// Why a type is wrong, by the tokens beside the first one.
fn wrong_beside(
    bytes: &[u8],
    tokens: &[SortedToken],
    at: usize,
    before: SortedToken,
    here: SortedToken,
    behind: SortedToken,
) -> Because
    requires { at ≤ length tokens.now }
    ensures { result ≡ wrong_beside_by bytes.now tokens.now at before here behind }
{
    if Sort::Return.is(here.sort) {
        return plain(Cause::WrongReturn);
    }
    if Sort::Activity.is(before.sort) {
        return about(here, Cause::NoReturn);
    }
    if is_changed(before, behind) {
        return change_because(here, cell_word(bytes, word_of(bytes, here), tokens));
    }
    if Sort::Assign.is(behind.sort) {
        return about(here, Cause::ArgumentType);
    }
    if Sort::OpenParenthesis.is(behind.sort) {
        let (_, call) = tokens.split_at(at);
        let parameters = behind_declared(bytes, word_of(bytes, here), tokens);
        return missing_because(here, missing_parameter(bytes, call, parameters));
    }
    typed_because(before, here)
}

/// Why the type at this number is wrong.
pub(crate) fn wrong_because(bytes: &[u8], tokens: &[SortedToken], at: usize) -> Because
    requires { at ≤ length tokens.now }
    ensures { result ≡ wrong_because_by bytes.now tokens.now at }
{
    wrong_beside(
        bytes,
        tokens,
        at,
        token_before(tokens, at),
        token_at(tokens, at),
        token_behind(tokens, at),
    )
}

/// Why a number is out of its range, by what it stands behind.
pub(crate) fn range_because(before: SortedToken) -> Because
    ensures { result ≡ range_because_by before }
{
    if Sort::Every.is(before.sort) {
        plain(Cause::EveryRange)
    } else if Sort::Count.is(before.sort) {
        plain(Cause::CountRange)
    } else if Sort::Rate.is(before.sort) {
        plain(Cause::RateRange)
    } else if Sort::Comma.is(before.sort) {
        plain(Cause::RangeEnd)
    } else if Sort::To.is(before.sort) {
        plain(Cause::ToRange)
    } else {
        plain(Cause::CoefficientRange)
    }
}
