//! The sums that are meant.

ghost use Rattle.std.specs.Prelude.{◌≡◌, ◌≤◌, ◌+◌, ◌*◌, IfOk};
ghost use Rattle.std.specs.Int.RustNames.{unsigned_abs};
ghost use Rattle.aerie_base.specs.Ranges.{number_limit};
ghost use Rattle.rule_check.specs.WindowMeaning.{number_within, with_factor, sum_with, meant_sum};

use crate::names::reading_named;
use aerie_base::{List, Model, Name, Number, OutOfMemory, Shared};
use constraints::{RuleSum, RuleTerm};
use dataset_in::Series;
use model_reader::RawName;
use rule_grammar::RawTerm;
use std::alloc::Global;

/// How many terms of a sum are meant at most.
const MOST_TERMS: usize = 16;

/// A number; one that is written is within the range.
fn number_within(number: Number) -> i128
    ensures is { result ≡ number_within number }
    ensures small { unsigned_abs result ≤ number_limit }
{
    let number = number.get();
    if number.unsigned_abs() <= 1_000_000_000_000_000_000 {
        i128::from(number)
    } else {
        0
    }
}

/// The sum with a number, or with a term, more.
fn with_factor(
    alloc: Global,
    model: &Model,
    datasets: &[(Name, Shared<Series>)],
    sum: RuleSum,
    number: Number,
    resource: &Option<RawName>,
) -> Result<RuleSum, OutOfMemory>
    requires small { unsigned_abs sum.constant ≤ 15 * number_limit }
    ensures sum { IfOk result (λ made. made ≡ with_factor model.now datasets.now sum number resource.now) }
    ensures small { IfOk result (λ made. unsigned_abs made.constant ≤ unsigned_abs sum.constant + number_limit) }
{
    let mut terms = sum.terms;
    match resource {
        None => Ok(RuleSum {
            terms,
            constant: sum.constant + number_within(number),
        }),
        Some(name) => {
            let resource = reading_named(alloc, model, datasets, &name.name)?;
            terms.push(RuleTerm {
                coefficient: number.get(),
                resource,
            })?;
            Ok(RuleSum {
                terms,
                constant: sum.constant,
            })
        }
    }
}

/// The sum with so many terms more at most.
fn sum_with(
    alloc: Global,
    model: &Model,
    datasets: &[(Name, Shared<Series>)],
    room: usize,
    sum: RuleSum,
    terms: &[RawTerm],
) -> Result<RuleSum, OutOfMemory>
    requires small { unsigned_abs sum.constant + room * number_limit ≤ 16 * number_limit }
    ensures { IfOk result (λ whole. whole ≡ sum_with model.now datasets.now room sum terms.now) }
{
    match terms.split_first() {
        None => Ok(sum),
        Some((term, rest)) => {
            if room == 0 {
                return Ok(sum);
            }
            let longer = with_factor(alloc, model, datasets, sum, term.number, &term.resource)?;
            sum_with(alloc, model, datasets, room - 1, longer, rest)
        }
    }
}

/// The sum of these terms.
pub fn meant_sum(
    alloc: Global,
    model: &Model,
    datasets: &[(Name, Shared<Series>)],
    terms: &List<RawTerm>,
) -> Result<RuleSum, OutOfMemory>
    ensures { IfOk result (λ sum. sum ≡ meant_sum model.now datasets.now terms.now) }
{
    let none = RuleSum {
        terms: List::new(alloc),
        constant: 0,
    };
    sum_with(alloc, model, datasets, MOST_TERMS, none, terms.as_slice())
}
