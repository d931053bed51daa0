//! Many edits of one plan: each edited plan is simulated beside the run before it, and from the start.

use crate::beside::runs_alike;
use crate::plans::{bare, bump, bump_after, put};
use aerie_base::Edge;
use test_worlds::Planned;

/// How many edits are made.
const EDITS: usize = 300;

/// How many directives the plan has.
const DIRECTIVES: usize = 12;

/// The next of numbers that look random.
pub(crate) fn next(number: u64) -> u64 {
    number
        .wrapping_mul(6_364_136_223_846_793_005)
        .wrapping_add(1_442_695_040_888_963_407)
}

/// One of some starts, by the upper bits of a number; the lower ones repeat soon.
fn start_by(number: u64) -> i64 {
    let starts = [0, 1, 5, 9, 15, 15, 20, 33, 34, 50, 71, 88];
    starts[(number >> 40) as usize % 12]
}

/// A directive by a number.
fn directive_by(number: u64) -> Planned {
    let start = start_by(number);
    let value = start_by(next(number));
    match (number >> 50) % 6 {
        0 => bump(start, value),
        1 => put(start, value),
        2 => bare(start, "Echo"),
        3 => bare(start, "Parent"),
        4 => bump_after(1, Edge::End, value, 2),
        _ => bump_after(1, Edge::Start, value, 2),
    }
}

#[test]
fn each_of_many_edits_comes_to_the_run_from_the_start(rt: HostRuntime) {
    let alloc = rt.alloc();
    let mut number = 7;
    let mut plan = [bump(0, 1); DIRECTIVES];
    for _edit in 0..EDITS {
        let before = plan;
        number = next(number);
        let at = (number >> 45) as usize % DIRECTIVES;
        // the first directive has no anchor, since others are anchored to it
        plan[at] = if at == 0 {
            bump(start_by(number), 3)
        } else {
            directive_by(number)
        };
        runs_alike(&rt, alloc, &before, &plan);
    }
}
