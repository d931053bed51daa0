//! The sections of a session's models.

ghost use Rattle.std.specs.Prelude.{◌≡◌, ◌≤◌, ◌-◌, length};
ghost use Rattle.session_judge.specs.FirstRefused.{begin_of as begin_of_by};
ghost use Rattle.session_judge.specs.Rules.{tokens_in as tokens_in_by};

use aerie_text::Token;

/// The number of the first token of a section, and that of the token behind its last.
pub(crate) type SectionRange = (usize, usize);

/// The number of the first token of a section.
pub(crate) fn begin_of(section: Option<SectionRange>) -> usize
    ensures { result ≡ begin_of_by section }
{
    match section {
        None => 0,
        Some(range) => range.0,
    }
}

/// The tokens of a section.
pub(crate) fn tokens_in(tokens: &[Token], range: SectionRange) -> &[Token]
    requires rises { range.0 ≤ range.1 }
    requires within { range.1 ≤ length tokens.now }
    ensures tokens { result.now ≡ tokens_in_by tokens.now range }
{
    &tokens[range.0..range.1]
}
