//! The datasets that constraints name.

ghost use Rattle.std.specs.Prelude.{◌≡◌, IfOk, OnOk};
ghost use Rattle.std.specs.List.{list_any};
ghost use Rattle.aerie_base.specs.models.Names.{same_name};
ghost use Rattle.report_text.specs.NamedByConstraints.{all_datasets, datasets_by_fold, has_name_of, named_datasets, noted, noted_all, reading_datasets, rule_datasets, sum_datasets};

use aerie_base::{List, Name, OutOfMemory, Shared};
use constraints::{Constraint, Reading, Rule, RuleSum, Window};
use dataset_in::Series;
use std::alloc::Global;

/// Whether a dataset of the name is among these.
fn is_noted(datasets: &[(Name, Shared<Series>)], name: &Name) -> bool
    ensures { result ≡ list_any (λ other. same_name other.0 name.now) datasets.now }
{
    datasets.iter().any(|other| other.0 == *name)
}

/// A dataset is noted, unless it is among those that are. These are few: a rule is short.
fn note(
    alloc: Global,
    datasets: &mut List<(Name, Shared<Series>)>,
    name: &Name,
    series: &Shared<Series>,
) -> Result<(), OutOfMemory>
    ensures { OnOk result (datasets.new ≡ noted has_name_of datasets.old (name.now, series.now)) }
{
    if is_noted(datasets.as_slice(), name) {
        return Ok(());
    }
    let series = series.share()?;
    let name = name.copy(alloc)?;
    datasets.push((name, series))
}

/// The dataset that is read, where one is.
fn note_reading(
    alloc: Global,
    datasets: &mut List<(Name, Shared<Series>)>,
    reading: &Reading,
) -> Result<(), OutOfMemory>
    ensures { OnOk result (datasets.new ≡ noted_all has_name_of datasets.old (reading_datasets reading.now)) }
{
    match reading {
        Reading::Resource(_) => Ok(()),
        Reading::Series { name, series } => note(alloc, datasets, name, series),
    }
}

/// The datasets that a sum reads.
#[tactic(auto, using(crate::proofs::Noting::noted_append))]
fn note_sum(
    alloc: Global,
    datasets: &mut List<(Name, Shared<Series>)>,
    sum: &RuleSum,
) -> Result<(), OutOfMemory>
    ensures { OnOk result (datasets.new ≡ noted_all has_name_of datasets.old (sum_datasets sum.now)) }
{
    let terms = sum.terms.as_slice();
    for term in terms {
        note_reading(alloc, datasets, &term.resource)?;
    }
    Ok(())
}

/// The datasets that a window reads.
#[tactic(auto, using(crate::proofs::Noting::noted_append))]
fn note_window(
    alloc: Global,
    datasets: &mut List<(Name, Shared<Series>)>,
    window: &Window,
) -> Result<(), OutOfMemory>
    ensures { OnOk result (datasets.new ≡ noted_all has_name_of datasets.old (datasets_by_fold window.now)) }
{
    match window {
        Window::Literal(_) | Window::During(_) | Window::DuringBound => Ok(()),
        Window::And(left, right) | Window::Or(left, right) => {
            note_window(alloc, datasets, left.get())?;
            note_window(alloc, datasets, right.get())
        }
        Window::Not(part) => note_window(alloc, datasets, part.get()),
        Window::Shift { of, .. } => note_window(alloc, datasets, of.get()),
        Window::Longer { of, .. } => note_window(alloc, datasets, of.get()),
        Window::Truth(reading) => note_reading(alloc, datasets, reading),
        Window::Same { resource, .. } => note_reading(alloc, datasets, resource),
        Window::Compare { left, right, .. } => {
            note_sum(alloc, datasets, left)?;
            note_sum(alloc, datasets, right)
        }
    }
}

/// The datasets that a rule reads.
#[tactic(auto, using(crate::proofs::Noting::datasets_are))]
fn note_rule(
    alloc: Global,
    datasets: &mut List<(Name, Shared<Series>)>,
    rule: &Rule,
) -> Result<(), OutOfMemory>
    ensures { OnOk result (datasets.new ≡ noted_all has_name_of datasets.old (rule_datasets rule.now)) }
{
    match rule {
        Rule::Plain(window) => note_window(alloc, datasets, window),
        Rule::Each { window, .. } => note_window(alloc, datasets, window),
        Rule::Forbid(_, _) => Ok(()),
    }
}

/// The datasets that a rule reads, each once, in the order of the text.
pub(crate) fn named_datasets(
    alloc: Global,
    rule: &Rule,
) -> Result<List<(Name, Shared<Series>)>, OutOfMemory>
    ensures { IfOk result (λ datasets. datasets ≡ named_datasets rule.now) }
{
    let mut datasets = List::new(alloc);
    note_rule(alloc, &mut datasets, rule)?;
    Ok(datasets)
}

/// The datasets that constraints read, each once, in the order of the text.
#[tactic(auto, using(crate::proofs::Noting::noted_append))]
pub(crate) fn all_datasets(
    alloc: Global,
    constraints: &[Constraint],
) -> Result<List<(Name, Shared<Series>)>, OutOfMemory>
    ensures { IfOk result (λ datasets. datasets ≡ all_datasets constraints.now) }
{
    let mut datasets = List::new(alloc);
    for constraint in constraints {
        note_rule(alloc, &mut datasets, &constraint.rule)?;
    }
    Ok(datasets)
}
