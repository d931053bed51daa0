//! What becomes of a directive of the base.

ghost use Rattle.std.specs.Prelude.{None, Some, option_copied};
ghost use Rattle.plan_merge.specs.Chosen.{IsChoice};

use crate::answers::ConflictKind;
use crate::wide_directives::{WideDirective, same_directive};
use aerie_base::Directive;

/// What becomes of a directive of the base.
#[derive(Clone, Copy, Debug, PartialEq, Eq, Drop)]
pub enum Choice {
    /// What the target has for it, or nothing.
    Target,
    /// What the source has for it.
    Source,
    /// It could not be merged.
    Clash(ConflictKind),
}

/// What becomes of a directive of the base, by what source and target have for it.
pub fn choose(
    base: &Directive,
    source: Option<&WideDirective>,
    target: Option<&Directive>,
) -> Choice
    ensures { IsChoice result base.now (option_copied source.entry) (option_copied target.entry) }
{
    match source {
        None => without_source(base, target),
        Some(source) => with_source(base, source, target),
    }
}

/// What becomes of a directive of the base that the source has not.
fn without_source(base: &Directive, target: Option<&Directive>) -> Choice
    ensures { IsChoice result base.now None (option_copied target.entry) }
{
    match target {
        None => Choice::Target,
        Some(target) => {
            if same_directive(target, base) {
                Choice::Source
            } else {
                Choice::Clash(ConflictKind::Removed)
            }
        }
    }
}

/// What becomes of a directive of the base that the source has.
fn with_source(base: &Directive, source: &WideDirective, target: Option<&Directive>) -> Choice
    ensures { IsChoice result base.now (Some source.now) (option_copied target.entry) }
{
    match target {
        None => {
            if source.is_same(base) {
                Choice::Target
            } else {
                Choice::Clash(ConflictKind::Removed)
            }
        }
        Some(target) => {
            if source.is_same(base) || source.is_same(target) {
                Choice::Target
            } else if same_directive(target, base) {
                Choice::Source
            } else {
                Choice::Clash(ConflictKind::Both)
            }
        }
    }
}
