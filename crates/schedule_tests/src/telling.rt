//! What a schedule is, as one line of text.

use aerie_base::Directive;
use goals::{GoalStatus, Rejection, Unmet};
use scheduler::Schedule;
use std::alloc::{AllocError, Global};

/// Why the last trial for a gap was rejected.
fn rejected(last: &Option<Rejection>) -> &'static str {
    match last {
        None => "none",
        Some(Rejection::Unfilled(_)) => "unfilled",
        Some(Rejection::Violates { .. }) => "violates",
    }
}

/// Why a goal is unmet: ` 0 tried for 1, none`, ` broken`, or nothing where it is met.
fn put_why(alloc: Global, text: &mut String, why: &Option<Unmet>) -> Result<(), AllocError> {
    match why {
        None => Ok(()),
        Some(Unmet::Broken) => text.push_str(" broken"),
        Some(Unmet::Open(open)) => {
            let last = rejected(&open.last);
            let tried = format!(in alloc; " {} tried for {}, {last}", open.tried, open.gap.at)?;
            text.push_str(tried.as_str())
        }
    }
}

/// A goal by its name, whether it is met, what was placed for it, and why it is unmet: `g met [2 3]`.
fn put_status(alloc: Global, text: &mut String, status: &GoalStatus) -> Result<(), AllocError> {
    let met = if status.met { "met" } else { "unmet" };
    let head = format!(in alloc; "{} {met} [", status.goal.as_str())?;
    text.push_str(head.as_str())?;
    let mut between = "";
    for id in status.placed.as_slice() {
        let word = format!(in alloc; "{between}{id}")?;
        text.push_str(word.as_str())?;
        between = " ";
    }
    text.push_str("]")?;
    put_why(alloc, text, &status.why)?;
    text.push_str("; ")
}

/// A directive by its id and its start: ` 2@15`.
fn put_directive(
    alloc: Global,
    text: &mut String,
    directive: &Directive,
) -> Result<(), AllocError> {
    let word = format!(in alloc; " {}@{}", directive.id, directive.start.get())?;
    text.push_str(word.as_str())
}

/// The goals with what was placed for them, how many trials there were and how many plans were simulated, and the directives:
/// `g met [2]; 1 trials, 2 runs; 1@5 2@7`.
pub(crate) fn told(alloc: Global, made: &Schedule, runs: u32) -> Result<String, AllocError> {
    let mut text = String::new(alloc);
    for status in made.goals.as_slice() {
        put_status(alloc, &mut text, status)?;
    }
    let counts = format!(in alloc; "{} trials, {runs} runs;", made.trials)?;
    text.push_str(counts.as_str())?;
    for directive in made.plan.directives.as_slice() {
        put_directive(alloc, &mut text, directive)?;
    }
    Ok(text)
}
