//! Why a directive of the plan is not added, and why a text is no dataset.

ghost use Rattle.std.specs.Prelude.{◌≡◌, ◌++◌, ◌≤◌, OnOk, length, string_bytes};
ghost use Rattle.explain.specs.EditCauses.{argument_cause as argument_cause_by, argument_line, before_parenthesis, edit_line, fault_because as fault_because_by, type_of_directive};
ghost use Rattle.explain.specs.WordsOfTokens.{or_none};

use crate::becauses::{about, about_line, of_line, plain};
use crate::causes::{Because, Cause, push_because, push_cause};
use crate::sorted::{SortedToken, no_token, token_at};
use crate::types::is_argument_given;
use aerie_base::OutOfMemory;
use aerie_text::Sort;
use dataset_in::DatasetError;
use plan_edit::EditError;

/// The token before the first parenthesis.
fn called(tokens: &[SortedToken]) -> SortedToken
    ensures { result ≡ before_parenthesis (or_none None) tokens.now }
{
    let mut last = no_token();
    for token in tokens {
        if Sort::OpenParenthesis.is(token.sort) {
            return last;
        }
        last = *token;
    }
    no_token()
}

/// The type of the directive whose `at` has this number.
fn directive_type(tokens: &[SortedToken], at: usize) -> SortedToken
    requires { at ≤ length tokens.now }
    ensures { result ≡ type_of_directive tokens.now at }
{
    let (_, directive) = tokens.split_at(at);
    called(directive)
}

/// An argument that is given is wrong, one that is not is missing.
fn argument_cause(bytes: &[u8], name: &[u8], directive: &[SortedToken]) -> Cause
    ensures { result ≡ argument_cause_by bytes.now name.now directive.now }
{
    if is_argument_given(bytes, name, directive) {
        Cause::BadArgument
    } else {
        Cause::MissingArgument
    }
}

/// Appends the line that tells of an argument of the directive whose `at` has this number.
fn push_argument(
    text: &mut String,
    bytes: &[u8],
    tokens: &[SortedToken],
    at: usize,
    parameter: &str,
) -> Result<(), OutOfMemory>
    requires { at ≤ length tokens.now }
    ensures { OnOk result (string_bytes text.new ≡ string_bytes text.old ++ argument_line bytes.now tokens.now at parameter.now) }
{
    let (_, directive) = tokens.split_at(at);
    let name = parameter.as_bytes();
    push_cause(text, name, 0, argument_cause(bytes, name, directive))
}

/// Appends the line that tells why the directive is not added whose `at` has this number.
pub(crate) fn push_edit(
    text: &mut String,
    bytes: &[u8],
    tokens: &[SortedToken],
    at: usize,
    edit: &EditError,
) -> Result<(), OutOfMemory>
    requires { at ≤ length tokens.now }
    ensures { OnOk result (string_bytes text.new ≡ string_bytes text.old ++ edit_line bytes.now tokens.now at edit.now) }
{
    match edit {
        EditError::UnknownType => {
            let kind = directive_type(tokens, at);
            push_because(text, bytes, about(kind, Cause::UnknownType))
        }
        EditError::BadArgument { parameter } => {
            push_argument(text, bytes, tokens, at, parameter.as_str())
        }
        EditError::Invalid { number } => {
            let kind = directive_type(tokens, at);
            let number = *number as usize + 1;
            push_because(text, bytes, about_line(kind, Cause::RequireNotMet, number))
        }
        EditError::OutsidePlan => push_because(text, bytes, plain(Cause::OutsidePlan)),
        EditError::TooMany => push_because(text, bytes, plain(Cause::ManyDirectives)),
        EditError::NoAnchor => {
            let anchor = token_at(tokens, at + 3);
            push_because(text, bytes, about(anchor, Cause::NoAnchor))
        }
        EditError::Cycle => push_because(text, bytes, plain(Cause::AnchorCycle)),
        EditError::NoDirective => push_because(text, bytes, plain(Cause::OtherEdit)),
        EditError::NotAPlan => push_because(text, bytes, plain(Cause::OtherEdit)),
        EditError::OutOfMemory => push_because(text, bytes, plain(Cause::OtherEdit)),
        EditError::Anchored { .. } => push_because(text, bytes, plain(Cause::OtherEdit)),
    }
}

/// Why a text is no dataset.
pub(crate) fn fault_because(fault: DatasetError) -> Because
    ensures { result ≡ fault_because_by fault }
{
    match fault {
        DatasetError::NotADataset => plain(Cause::NotADataset),
        DatasetError::TooMany => plain(Cause::ManySegments),
        DatasetError::BadSegment { number } => of_line(Cause::BadSegment, number as usize + 1),
        DatasetError::OutOfMemory => plain(Cause::NotADataset),
    }
}
