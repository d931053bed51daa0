//! What is left of the directives, and those that could not be merged.

ghost use Rattle.std.specs.Prelude.{◌≡◌, ◌++◌, Some, None, IfOk, option_copied, if◌then◌else◌};
ghost use Rattle.aerie_base.specs.plans.OfModel.{with_id, Rise};
ghost use Rattle.plan_merge.specs.Renaming.{added};
ghost use Rattle.plan_merge.specs.Merging.{becomes, clash_of, clashes, what_is_left, left_by, left_of_target};
ghost use Rattle.plan_merge.specs.Chosen.{IsChoiceOf};
ghost use Rattle.plan_merge.specs.Plans.{AreMergeable, AreRenamed};

use crate::answers::Conflict;
use crate::lists::push_some;
use crate::renaming::{has, renamed_with};
use crate::table::{Choice, choose};
use crate::wide_directives::WideDirective;
use aerie_base::{Directive, List, OutOfMemory, Plan, position_in_plan};
use std::alloc::Global;

/// The directive with an id.
fn directive_with(directives: &[Directive], id: u32) -> Option<&Directive>
    requires rising { Rise directives.now }
    ensures { option_copied result ≡ with_id directives.now id }
{
    match position_in_plan(directives, id) {
        Some(at) => directives.get(at),
        None => None,
    }
}

/// What becomes of a directive of the base.
fn choice_of(
    base: &Plan,
    source: &Plan,
    target: &Plan,
    all: &[WideDirective],
    directive: &Directive,
) -> Choice
    requires order { AreMergeable base.now source.now target.now }
    requires renamed { AreRenamed base.now source.now target.now all.now }
    ensures { IsChoiceOf base.now source.now target.now directive.now result }
{
    choose(
        directive,
        renamed_with(source.directives.as_slice(), all, directive.id),
        directive_with(target.directives.as_slice(), directive.id),
    )
}

/// The conflict where a directive could not be merged.
fn clash_of(
    base: &Plan,
    source: &Plan,
    target: &Plan,
    all: &[WideDirective],
    directive: &Directive,
) -> Option<Conflict>
    requires order { AreMergeable base.now source.now target.now }
    requires renamed { AreRenamed base.now source.now target.now all.now }
    ensures { result ≡ clash_of directive.now.id (becomes base.now source.now target.now directive.now) }
{
    match choice_of(base, source, target, all, directive) {
        Choice::Target | Choice::Source => None,
        Choice::Clash(kind) => Some(Conflict {
            id: u64::from(directive.id),
            kind,
        }),
    }
}

/// The directives that source and target changed or removed in ways that do not agree.
pub fn clashes(
    alloc: Global,
    base: &Plan,
    source: &Plan,
    target: &Plan,
    all: &[WideDirective],
) -> Result<List<Conflict>, OutOfMemory>
    requires order { AreMergeable base.now source.now target.now }
    requires renamed { AreRenamed base.now source.now target.now all.now }
    ensures { IfOk result (λ conflicts. conflicts ≡ clashes base.now source.now target.now) }
{
    let mut conflicts = List::new(alloc);
    for directive in base.directives.as_slice() {
        push_some(
            &mut conflicts,
            clash_of(base, source, target, all, directive),
        )?;
    }
    Ok(conflicts)
}

/// An equal directive, where there is one.
fn copy_of(alloc: Global, one: Option<&WideDirective>) -> Result<Option<WideDirective>, OutOfMemory>
    ensures { IfOk result (λ copy. copy ≡ option_copied one.entry) }
{
    match one {
        None => Ok(None),
        Some(one) => Ok(Some(one.copy(alloc)?)),
    }
}

/// What is left of a directive of the target that the base has too.
fn left_of_both(
    alloc: Global,
    base: &Plan,
    source: &Plan,
    target: &Plan,
    all: &[WideDirective],
    of_base: &Directive,
    directive: &Directive,
) -> Result<Option<WideDirective>, OutOfMemory>
    requires order { AreMergeable base.now source.now target.now }
    requires renamed { AreRenamed base.now source.now target.now all.now }
    requires same { with_id target.now.directives of_base.now.id ≡ Some directive.now }
    ensures { IfOk result (λ one. one ≡ what_is_left (becomes base.now source.now target.now of_base.now)) }
{
    match choice_of(base, source, target, all, of_base) {
        Choice::Target => Ok(Some(WideDirective::of(alloc, directive)?)),
        Choice::Source => copy_of(
            alloc,
            renamed_with(source.directives.as_slice(), all, of_base.id),
        ),
        Choice::Clash(_) => Ok(None),
    }
}

/// What is left of a directive of the target.
fn left_of(
    alloc: Global,
    base: &Plan,
    source: &Plan,
    target: &Plan,
    all: &[WideDirective],
    directive: &Directive,
) -> Result<Option<WideDirective>, OutOfMemory>
    requires order { AreMergeable base.now source.now target.now }
    requires renamed { AreRenamed base.now source.now target.now all.now }
    requires same { with_id target.now.directives directive.now.id ≡ Some directive.now }
    ensures { IfOk result (λ one.
        one ≡ left_by base.now source.now target.now directive.now (with_id base.now.directives directive.now.id)) }
{
    match directive_with(base.directives.as_slice(), directive.id) {
        None => Ok(Some(WideDirective::of(alloc, directive)?)),
        Some(of_base) => left_of_both(alloc, base, source, target, all, of_base, directive),
    }
}

/// What is left of the target's directives.
pub fn left(
    alloc: Global,
    base: &Plan,
    source: &Plan,
    target: &Plan,
    all: &[WideDirective],
) -> Result<List<WideDirective>, OutOfMemory>
    requires order { AreMergeable base.now source.now target.now }
    requires renamed { AreRenamed base.now source.now target.now all.now }
    ensures { IfOk result (λ directives. directives ≡ left_of_target base.now source.now target.now) }
{
    let mut directives = List::new(alloc);
    for directive in target.directives.as_slice() {
        let one = left_of(alloc, base, source, target, all, directive)?;
        push_some(&mut directives, one)?;
    }
    Ok(directives)
}

/// An equal directive, where it is wanted.
fn copy_if(
    alloc: Global,
    one: &WideDirective,
    wanted: bool,
) -> Result<Option<WideDirective>, OutOfMemory>
    ensures { IfOk result (λ copy. copy ≡ (if wanted then Some one.now else None)) }
{
    if wanted {
        Ok(Some(one.copy(alloc)?))
    } else {
        Ok(None)
    }
}

/// Puts the directives new in the source behind others.
pub fn push_added(
    alloc: Global,
    base: &Plan,
    source: &Plan,
    target: &Plan,
    all: &[WideDirective],
    directives: &mut List<WideDirective>,
) -> Result<(), OutOfMemory>
    requires order { AreMergeable base.now source.now target.now }
    requires renamed { AreRenamed base.now source.now target.now all.now }
    ensures { IfOk result (λ _. directives.new ≡ directives.old ++ added base.now source.now target.now) }
{
    let of_source = source.directives.as_slice();
    for at in 0..of_source.len() {
        let is_new = !has(base.directives.as_slice(), of_source[at].id);
        let one = copy_if(alloc, &all[at], is_new)?;
        push_some(directives, one)?;
    }
    Ok(())
}
