//! Anchors of merged directives that are to none of them.

ghost use Rattle.std.specs.Prelude.{◌≡◌, IfOk};
ghost use Rattle.aerie_base.specs.plans.OfModel.{is_there, Rise};
ghost use Rattle.plan_merge.specs.declared.answers.ConflictKind.TheVariants.{Anchor as Dangling};
ghost use Rattle.plan_merge.specs.Renaming.{has};
ghost use Rattle.plan_merge.specs.Merging.{has_dangling_anchor, conflicts_of};

use crate::answers::{Conflict, ConflictKind};
use crate::lists::{conflict_where, push_some};
use crate::wide_directives::WideDirective;
use aerie_base::{List, OutOfMemory, position_of_id};
use std::alloc::Global;

/// Whether one of some directives has the id.
fn has(directives: &[WideDirective], id: u64) -> bool
    requires rising { Rise directives.now }
    ensures { result ≡ has directives.now id }
{
    position_of_id(directives, id).is_some()
}

/// Whether one of some directives has the id, where there is one.
fn is_there(directives: &[WideDirective], id: Option<u64>) -> bool
    requires rising { Rise directives.now }
    ensures { result ≡ is_there directives.now id }
{
    match id {
        None => true,
        Some(id) => has(directives, id),
    }
}

/// Whether a directive's anchor is to none of some directives.
fn has_dangling_anchor(directives: &[WideDirective], directive: &WideDirective) -> bool
    requires rising { Rise directives.now }
    ensures { result ≡ has_dangling_anchor directives.now directive.now }
{
    !is_there(directives, directive.anchored_to())
}

/// The directives whose anchor is to none of them.
pub fn dangling(alloc: Global, directives: &[WideDirective]) -> Result<List<Conflict>, OutOfMemory>
    requires rising { Rise directives.now }
    ensures { IfOk result (λ conflicts.
        conflicts ≡ conflicts_of Dangling (has_dangling_anchor directives.now) directives.now) }
{
    let mut conflicts = List::new(alloc);
    for directive in directives {
        let is = has_dangling_anchor(directives, directive);
        push_some(
            &mut conflicts,
            conflict_where(ConflictKind::Anchor, directive.id(), is),
        )?;
    }
    Ok(conflicts)
}
