//! The names of datasets are judged.

ghost use Rattle.std.specs.Prelude.{◌≡◌, IfOk};
ghost use Rattle.session_reader.specs.DatasetNames.{has_resource as has_resource_by, is_resource_name as is_resource_name_by, dataset_diagnostics, datasets_diagnostics};
ghost use Rattle.diagnostics.specs.Diagnostics.{all_of};
ghost use Rattle.session_reader.specs.Diagnostics.{noted};

use crate::causes::Cause;
use crate::names::note_all_repeated;
use aerie_base::{Model, Name, OutOfMemory, Shared};
use diagnostics::{Diagnostic, note_unless};
use session_grammar::RawDataset;
use std::alloc::Global;

/// Whether a resource of a model has the name: it has at most 256.
fn has_resource(name: &Name, model: &Model) -> bool
    ensures { result ≡ has_resource_by name.now model.now }
{
    model.resources().iter().any(|resource| resource.0 == *name)
}

/// Whether a resource of one of the models has the name.
fn is_resource_name(models: &[Shared<Model>], name: &Name) -> bool
    ensures { result ≡ is_resource_name_by models.now name.now }
{
    models.iter().any(|model| has_resource(name, model.get()))
}

/// Notes datasets with the names of resources.
fn note_resource_names(
    models: &[Shared<Model>],
    datasets: &[RawDataset],
    found: &mut Option<Diagnostic<Cause>>,
)
    ensures { found.new ≡ noted found.old (all_of (dataset_diagnostics models.now) datasets.now) }
{
    for dataset in datasets {
        let is_free = !is_resource_name(models, &dataset.name.name);
        note_unless(is_free, found, dataset.name.at, Cause::Duplicate);
    }
}

/// Notes datasets with the names of earlier ones or of resources.
#[tactic(auto, using(diagnostics::specs::NotedInTurn::noted_appended))]
pub(crate) fn note_datasets(
    alloc: Global,
    models: &[Shared<Model>],
    datasets: &[RawDataset],
    found: &mut Option<Diagnostic<Cause>>,
) -> Result<(), OutOfMemory>
    ensures { IfOk result (λ _. found.new ≡ noted found.old (datasets_diagnostics models.now datasets.now)) }
{
    note_all_repeated(alloc, datasets, found)?;
    note_resource_names(models, datasets, found);
    Ok(())
}
