//! In how many directives two plans differ.

use aerie_base::{Directive, Plan};

/// In how many directives two plans differ: those whose id only one of them has, and those that both have and that are not the
/// same. It takes time linear in the plans. It says only which of two old runs is the nearer one, and so no clause speaks of it.
pub(crate) fn count_differing(plan: &Plan, other: &Plan) -> usize {
    let directives = plan.directives.as_slice();
    let others = other.directives.as_slice();
    let mut at = 0;
    let mut count: usize = 0;
    for directive in directives {
        let behind = behind_smaller(others, at, directive);
        count = count.saturating_add(behind.saturating_sub(at));
        at = behind;
        if is_same_there(others, at, directive) {
            at = at.saturating_add(1);
        } else {
            count = count.saturating_add(1);
            at = behind_id(others, at, directive);
        }
    }
    count.saturating_add(others.len().saturating_sub(at))
}

/// The place, from one on, of the first directive whose id is not below that of another.
fn behind_smaller(directives: &[Directive], from: usize, other: &Directive) -> usize {
    for at in from..directives.len() {
        if directives[at].id >= other.id {
            return at;
        }
    }
    directives.len()
}

/// Whether just this directive stands at a place.
fn is_same_there(directives: &[Directive], at: usize, directive: &Directive) -> bool {
    match directives.get(at) {
        Some(other) => directive.is_same(other),
        None => false,
    }
}

/// The place behind one, where a directive with the id of another stands there, and else that place.
fn behind_id(directives: &[Directive], at: usize, other: &Directive) -> usize {
    match directives.get(at) {
        Some(directive) => {
            if directive.id == other.id {
                at.saturating_add(1)
            } else {
                at
            }
        }
        None => at,
    }
}
