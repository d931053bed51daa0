//! What is refused of goals is found. The time is linear in the goals, but for looking up names among the at most 256 of a sort.

ghost use Rattle.std.specs.Prelude.{◌≡◌, ◌≤◌, OnOk, length};
ghost use Rattle.rule_check.specs.Refusals.{noted};
ghost use Rattle.goal_check.specs.GoalRefusals.{refusals_of_every, is_range_within, refusals_of_range, is_count_within, refusals_of_count, refusals_of_shifts, refusals_of_anchor, refusals_of_kind, is_constraint_named, refusals_of_keeping, is_goal_named, refusals_of_goal, refusals_of_goals_from};

use crate::template::refusals::judge_template;
use aerie_base::{Model, Name, Number, OutOfMemory, Shared, Time};
use constraints::Constraint;
use dataset_in::Series;
use diagnostics::{Diagnostic, note, note_unless};
use model_reader::RawName;
use readers::Limit;
use rule_check::{WrongRule, judge_type, judge_window, signed_time, time_within};
use rule_grammar::{RawAnchor, RawGoal, RawGoalKind, RawNumber, RawRange};
use std::alloc::Global;

/// How many goals a model may have.
const MOST_GOALS: usize = 64;

// ---- numbers

/// Refuses a length of time of 0.
fn judge_every(every: RawNumber, found: &mut Option<Diagnostic<WrongRule>>)
    ensures { found.new ≡ noted found.old (refusals_of_every every) }
{
    let lasts = 1 <= time_within(every.number).get();
    note_unless(lasts, found, every.at, WrongRule::OutOfRange);
}

/// Whether a range of time ends later than it begins, and not behind the plan.
fn is_range_within(duration: Time, range: &RawRange) -> bool
    ensures { result ≡ is_range_within duration range.now }
{
    let (from, to) = (time_within(range.from), time_within(range.to.number));
    from.get() < to.get() && to.get() <= duration.get()
}

fn judge_range(duration: Time, range: &RawRange, found: &mut Option<Diagnostic<WrongRule>>)
    ensures { found.new ≡ noted found.old (refusals_of_range duration range.now) }
{
    let is_within = is_range_within(duration, range);
    note_unless(is_within, found, range.to.at, WrongRule::OutOfRange);
}

/// Whether a goal may ask for so many starts.
pub(crate) fn is_count_within(count: Number) -> bool
    ensures { result ≡ is_count_within count }
{
    let count = count.get().unsigned_abs();
    1 <= count && count <= 10_000
}

fn judge_count(count: RawNumber, found: &mut Option<Diagnostic<WrongRule>>)
    ensures { found.new ≡ noted found.old (refusals_of_count count) }
{
    let is_within = is_count_within(count.number);
    note_unless(is_within, found, count.at, WrongRule::OutOfRange);
}

/// Refuses an end before its begin.
fn judge_shifts(from: Number, to: RawNumber, found: &mut Option<Diagnostic<WrongRule>>)
    ensures { found.new ≡ noted found.old (refusals_of_shifts from to) }
{
    let rises = signed_time(from) <= signed_time(to.number);
    note_unless(rises, found, to.at, WrongRule::OutOfRange);
}

// ---- kinds

fn judge_anchor(
    model: &Model,
    datasets: &[(Name, Shared<Series>)],
    anchor: &RawAnchor,
    found: &mut Option<Diagnostic<WrongRule>>,
)
    ensures { found.new ≡ noted found.old (refusals_of_anchor model.now datasets.now anchor.now) }
{
    match anchor {
        RawAnchor::Starts(kind) | RawAnchor::Ends(kind) => judge_type(model, kind, found),
        RawAnchor::Windows(window) => judge_window(model, datasets, None, window, found),
    }
}

/// Judges what a goal asks for.
#[tactic(auto, using(diagnostics::specs::NotedInTurn::noted_appended))]
fn judge_kind(
    model: &Model,
    duration: Time,
    datasets: &[(Name, Shared<Series>)],
    kind: &RawGoalKind,
    found: &mut Option<Diagnostic<WrongRule>>,
)
    ensures { found.new ≡ noted found.old (refusals_of_kind model.now duration datasets.now kind.now) }
{
    match kind {
        RawGoalKind::Recurrence { every, range } => {
            judge_every(*every, found);
            judge_range(duration, range, found);
        }
        RawGoalKind::Coexistence { anchor, from, to } => {
            judge_anchor(model, datasets, anchor, found);
            judge_shifts(*from, *to, found);
        }
        RawGoalKind::Cardinality { count, range } => {
            judge_count(*count, found);
            judge_range(duration, range, found);
        }
    }
}

// ---- what is kept

/// Whether one of the constraints has the name.
fn is_constraint_named(constraints: &[Constraint], name: &Name) -> bool
    ensures { result ≡ is_constraint_named constraints.now name.now }
{
    constraints
        .iter()
        .any(|constraint| constraint.name == *name)
}

/// Refuses names of no constraint.
fn judge_keeping(
    constraints: &[Constraint],
    names: &[RawName],
    found: &mut Option<Diagnostic<WrongRule>>,
)
    ensures { found.new ≡ noted found.old (refusals_of_keeping constraints.now names.now) }
{
    for name in names {
        let is_known = is_constraint_named(constraints, &name.name);
        note_unless(is_known, found, name.at, WrongRule::Unknown);
    }
}

// ---- goals

/// Whether one of the goals has the name.
fn is_goal_named(goals: &[RawGoal], name: &Name) -> bool
    ensures { result ≡ is_goal_named goals.now name.now }
{
    goals.iter().any(|other| other.name.name == *name)
}

/// Judges a goal behind others.
#[tactic(auto, using(diagnostics::specs::NotedInTurn::noted_appended))]
fn judge_goal(
    alloc: Global,
    model: &Model,
    duration: Time,
    constraints: &[Constraint],
    datasets: &[(Name, Shared<Series>)],
    others: &[RawGoal],
    goal: &RawGoal,
    found: &mut Option<Diagnostic<WrongRule>>,
) -> Result<(), OutOfMemory>
    ensures { OnOk result (found.new ≡ noted found.old (refusals_of_goal model.now duration constraints.now datasets.now others.now goal.now)) }
{
    let name = &goal.name;
    let is_new = !is_goal_named(others, &name.name);
    note_unless(is_new, found, name.at, WrongRule::Duplicate);
    judge_template(alloc, model, &goal.template, found)?;
    judge_kind(model, duration, datasets, &goal.kind, found);
    judge_keeping(constraints, goal.keeping.as_slice(), found);
    Ok(())
}

/// Judges the goals from this number on.
pub(crate) fn judge_from(
    alloc: Global,
    model: &Model,
    duration: Time,
    constraints: &[Constraint],
    datasets: &[(Name, Shared<Series>)],
    goals: &[RawGoal],
    at: usize,
    found: &mut Option<Diagnostic<WrongRule>>,
) -> Result<(), OutOfMemory>
    requires few { at ≤ 64 }
    requires there { at ≤ length goals.now }
    ensures { OnOk result (found.new ≡ noted found.old (refusals_of_goals_from model.now duration constraints.now datasets.now at goals.now)) }
{
    let (others, rest) = goals.split_at(at);
    match rest.split_first() {
        None => Ok(()),
        Some((goal, _)) => {
            if at == MOST_GOALS {
                note(found, goal.name.at, WrongRule::TooMany(Limit::Goals));
                Ok(())
            } else {
                judge_goal(
                    alloc,
                    model,
                    duration,
                    constraints,
                    datasets,
                    others,
                    goal,
                    found,
                )?;
                judge_from(
                    alloc,
                    model,
                    duration,
                    constraints,
                    datasets,
                    goals,
                    at + 1,
                    found,
                )
            }
        }
    }
}
