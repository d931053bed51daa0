//! The constraints that are meant.

ghost use Rattle.std.specs.Prelude.{◌≡◌, IfOk};
ghost use Rattle.rule_check.specs.ConstraintMeaning.{meant_rule, constraint_of, constraints_of};

use crate::window::meaning::{number_of_type, window_of};
use aerie_base::{List, Model, Name, OutOfMemory, Shared};
use constraints::{Constraint, Rule};
use dataset_in::Series;
use rule_grammar::{RawConstraint, RawRule};
use std::alloc::Global;

fn meant_rule(
    alloc: Global,
    model: &Model,
    datasets: &[(Name, Shared<Series>)],
    raw: &RawRule,
) -> Result<Rule, OutOfMemory>
    ensures { IfOk result (λ rule. rule ≡ meant_rule model.now datasets.now raw.now) }
{
    match raw {
        RawRule::Plain(window) => {
            let window = window_of(alloc, model, datasets, None, window)?;
            Ok(Rule::Plain(window))
        }
        RawRule::Each {
            bound,
            kind,
            window,
        } => {
            let window = window_of(alloc, model, datasets, Some(&bound.name), window)?;
            Ok(Rule::Each {
                kind: number_of_type(model, kind),
                window,
            })
        }
        RawRule::Forbid { first, second } => Ok(Rule::Forbid(
            number_of_type(model, first),
            number_of_type(model, second),
        )),
    }
}

fn constraint_of(
    alloc: Global,
    model: &Model,
    datasets: &[(Name, Shared<Series>)],
    raw: &RawConstraint,
) -> Result<Constraint, OutOfMemory>
    ensures { IfOk result (λ constraint. constraint ≡ constraint_of model.now datasets.now raw.now) }
{
    let name = raw.name.name.copy(alloc)?;
    let rule = meant_rule(alloc, model, datasets, &raw.rule)?;
    Ok(Constraint { name, rule })
}

/// The constraints that are meant, in their order.
pub fn constraints_of(
    alloc: Global,
    model: &Model,
    datasets: &[(Name, Shared<Series>)],
    raw: &List<RawConstraint>,
) -> Result<List<Constraint>, OutOfMemory>
    ensures { IfOk result (λ constraints. constraints ≡ constraints_of model.now datasets.now raw.now) }
{
    let mut constraints = List::new(alloc);
    for one in raw.as_slice() {
        constraints.push(constraint_of(alloc, model, datasets, one)?)?;
    }
    Ok(constraints)
}
