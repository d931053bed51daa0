//! The goals that are meant.

ghost use Rattle.std.specs.Prelude.{◌≡◌, IfOk, map};
ghost use Rattle.goal_check.specs.GoalMeaning.{meant_count, meant_anchor, meant_kind, meant_goal, meant_goals};

use crate::goal::refusals::is_count_within;
use crate::template::meaning::meant_template;
use aerie_base::{List, Model, Name, Number, OutOfMemory, Shared};
use dataset_in::Series;
use goals::{Goal, GoalAnchor, GoalKind};
use model_reader::RawName;
use rule_check::{number_of_type, signed_time, time_within, window_of};
use rule_grammar::{RawAnchor, RawGoal, RawGoalKind};
use std::alloc::Global;

/// How many starts.
fn meant_count(count: Number) -> u32
    ensures { result ≡ meant_count count }
{
    if is_count_within(count) {
        count.get().unsigned_abs() as u32
    } else {
        1
    }
}

fn meant_anchor(
    alloc: Global,
    model: &Model,
    datasets: &[(Name, Shared<Series>)],
    anchor: &RawAnchor,
) -> Result<GoalAnchor, OutOfMemory>
    ensures { IfOk result (λ meant. meant ≡ meant_anchor model.now datasets.now anchor.now) }
{
    match anchor {
        RawAnchor::Starts(kind) => Ok(GoalAnchor::Starts(number_of_type(model, kind))),
        RawAnchor::Ends(kind) => Ok(GoalAnchor::Ends(number_of_type(model, kind))),
        RawAnchor::Windows(window) => {
            let window = window_of(alloc, model, datasets, None, window)?;
            Ok(GoalAnchor::Windows(window))
        }
    }
}

fn meant_kind(
    alloc: Global,
    model: &Model,
    datasets: &[(Name, Shared<Series>)],
    kind: &RawGoalKind,
) -> Result<GoalKind, OutOfMemory>
    ensures { IfOk result (λ meant. meant ≡ meant_kind model.now datasets.now kind.now) }
{
    match kind {
        RawGoalKind::Recurrence { every, range } => Ok(GoalKind::Recurrence {
            every: time_within(every.number),
            from: time_within(range.from),
            to: time_within(range.to.number),
        }),
        RawGoalKind::Coexistence { anchor, from, to } => {
            let anchor = meant_anchor(alloc, model, datasets, anchor)?;
            Ok(GoalKind::Coexistence {
                anchor,
                from: signed_time(*from),
                to: signed_time(to.number),
            })
        }
        RawGoalKind::Cardinality { count, range } => Ok(GoalKind::Cardinality {
            count: meant_count(count.number),
            from: time_within(range.from),
            to: time_within(range.to.number),
        }),
    }
}

/// Copies of names, in their order.
fn names_of(alloc: Global, names: &[RawName]) -> Result<List<Name>, OutOfMemory>
    ensures { IfOk result (λ copies. copies ≡ map (λ name. name.name) names.now) }
{
    let mut copies = List::new(alloc);
    for name in names {
        copies.push(name.name.copy(alloc)?)?;
    }
    Ok(copies)
}

fn meant_goal(
    alloc: Global,
    model: &Model,
    datasets: &[(Name, Shared<Series>)],
    goal: &RawGoal,
) -> Result<Goal, OutOfMemory>
    ensures { IfOk result (λ meant. meant ≡ meant_goal model.now datasets.now goal.now) }
{
    let name = goal.name.name.copy(alloc)?;
    let template = meant_template(alloc, model, &goal.template)?;
    let kind = meant_kind(alloc, model, datasets, &goal.kind)?;
    let keeping = names_of(alloc, goal.keeping.as_slice())?;
    Ok(Goal {
        name,
        template,
        kind,
        keeping,
        rollback: goal.rollback,
    })
}

/// The goals that are meant, in their order.
pub(crate) fn meant_goals(
    alloc: Global,
    model: &Model,
    datasets: &[(Name, Shared<Series>)],
    raw: &List<RawGoal>,
) -> Result<List<Goal>, OutOfMemory>
    ensures { IfOk result (λ goals. goals ≡ meant_goals model.now datasets.now raw.now) }
{
    let mut goals = List::new(alloc);
    for one in raw.as_slice() {
        goals.push(meant_goal(alloc, model, datasets, one)?)?;
    }
    Ok(goals)
}
