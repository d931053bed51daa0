//! What is refused of constraints is found.

ghost use Rattle.std.specs.Prelude.{◌≡◌, ◌≤◌, length};
ghost use Rattle.rule_check.specs.ConstraintRefusals.{refusals_of_rule, is_name_of_one, refusals_of_constraint, refusals_from};
ghost use Rattle.rule_check.specs.Refusals.{noted};

use crate::causes::WrongRule;
use crate::window::refusals::{judge_type, judge_window};
use aerie_base::{Model, Name, Shared};
use dataset_in::Series;
use diagnostics::{Diagnostic, note, note_unless};
use readers::Limit;
use rule_grammar::{RawConstraint, RawRule};

/// How many constraints a model may have.
const MOST_CONSTRAINTS: usize = 256;

/// Whether one of the constraints has the name.
fn is_name_of_one(constraints: &[RawConstraint], name: &Name) -> bool
    ensures { result ≡ is_name_of_one constraints.now name.now }
{
    constraints.iter().any(|other| other.name.name == *name)
}

/// Judges what a constraint asks for.
#[tactic(auto, using(diagnostics::specs::NotedInTurn::noted_appended))]
fn judge_rule(
    model: &Model,
    datasets: &[(Name, Shared<Series>)],
    rule: &RawRule,
    found: &mut Option<Diagnostic<WrongRule>>,
)
    ensures { found.new ≡ noted found.old (refusals_of_rule model.now datasets.now rule.now) }
{
    match rule {
        RawRule::Plain(window) => judge_window(model, datasets, None, window, found),
        RawRule::Each {
            bound,
            kind,
            window,
        } => {
            judge_type(model, kind, found);
            judge_window(model, datasets, Some(&bound.name), window, found);
        }
        RawRule::Forbid { first, second } => {
            judge_type(model, first, found);
            judge_type(model, second, found);
        }
    }
}

/// Judges a constraint behind others.
#[tactic(auto, using(diagnostics::specs::NotedInTurn::noted_appended))]
fn judge_constraint(
    model: &Model,
    datasets: &[(Name, Shared<Series>)],
    others: &[RawConstraint],
    constraint: &RawConstraint,
    found: &mut Option<Diagnostic<WrongRule>>,
)
    ensures { found.new ≡ noted found.old (refusals_of_constraint model.now datasets.now others.now constraint.now) }
{
    let name = &constraint.name;
    let is_new = !is_name_of_one(others, &name.name);
    note_unless(is_new, found, name.at, WrongRule::Duplicate);
    judge_rule(model, datasets, &constraint.rule, found);
}

/// Judges the constraints from this number on.
pub fn judge_from(
    model: &Model,
    datasets: &[(Name, Shared<Series>)],
    constraints: &[RawConstraint],
    at: usize,
    found: &mut Option<Diagnostic<WrongRule>>,
)
    requires few { at ≤ 256 }
    requires there { at ≤ length constraints.now }
    ensures { found.new ≡ noted found.old (refusals_from model.now datasets.now at constraints.now) }
{
    let (others, rest) = constraints.split_at(at);
    match rest.split_first() {
        None => {}
        Some((constraint, _)) => {
            if at == MOST_CONSTRAINTS {
                let limit = Limit::Constraints;
                note(found, constraint.name.at, WrongRule::TooMany(limit));
            } else {
                judge_constraint(model, datasets, others, constraint, found);
                judge_from(model, datasets, constraints, at + 1, found);
            }
        }
    }
}
