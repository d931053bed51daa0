//! The datasets are read.

ghost use Rattle.std.specs.Prelude.{◌≡◌, ◌≤◌, IfOk, length, Ok, Err};
ghost use Rattle.aerie_base.specs.UnlessMemory.{UnlessMemory};
ghost use Rattle.dataset_in.specs.Datasets.{dataset_of, ran_out};
ghost use Rattle.dataset_in.specs.Series.{IsSeries};
ghost use Rattle.session_reader.specs.Answers.{IsMade};
ghost use Rattle.session_reader.specs.Quotes.{unquoted as unquoted_by};
ghost use Rattle.session_reader.specs.DatasetAnswers.{AreSeries, fault_refusal, dataset_answer, datasets_answer};

use crate::quotes::{BACKQUOTE, unquoted};
use crate::session_error::SessionError;
use aerie_base::{List, Name, OutOfMemory, Shared};
use dataset_in::{DatasetError, Series, read_dataset};
use session_grammar::RawDataset;
use std::alloc::Global;

/// A series with its name.
pub(crate) type NamedSeries = (Name, Shared<Series>);

/// The refusal of the dataset of this number.
fn refusal(number: u32, fault: DatasetError) -> SessionError
    ensures { result ≡ fault_refusal number fault }
{
    match fault {
        DatasetError::OutOfMemory => SessionError::OutOfMemory,
        DatasetError::NotADataset => SessionError::Dataset {
            number,
            fault: DatasetError::NotADataset,
        },
        DatasetError::TooMany => SessionError::Dataset {
            number,
            fault: DatasetError::TooMany,
        },
        DatasetError::BadSegment { number: segment } => SessionError::Dataset {
            number,
            fault: DatasetError::BadSegment { number: segment },
        },
    }
}

/// Gives a series its name.
fn named(alloc: Global, name: &Name, series: Series) -> Result<NamedSeries, OutOfMemory>
    ensures { IfOk result (λ made. made ≡ (name.now, series)) }
{
    let series = Shared::new(alloc, series)?;
    Ok((name.copy(alloc)?, series))
}

/// Reads the series of a dataset.
fn series(alloc: Global, raw: &RawDataset) -> Result<Series, DatasetError>
    ensures exact { UnlessMemory ran_out (dataset_of (unquoted_by 96 raw.now.text)) result }
    ensures series { IfOk result IsSeries }
{
    read_dataset(alloc, unquoted(BACKQUOTE, raw.text.as_str()))
}

/// Reads the dataset of this number.
#[tactic(auto, using(crate::proofs::Refusals::series_made))]
fn dataset(alloc: Global, number: u32, raw: &RawDataset) -> Result<NamedSeries, SessionError>
    ensures made { IsMade (dataset_answer number raw.now) result }
    ensures series { IfOk result (λ made. IsSeries made.1) }
{
    match series(alloc, raw) {
        Ok(series) => Ok(named(alloc, &raw.name.name, series)?),
        Err(fault) => Err(refusal(number, fault)),
    }
}

/// Reads the datasets, at most 64.
pub(crate) fn datasets(alloc: Global, raw: &[RawDataset]) -> Result<List<NamedSeries>, SessionError>
    requires few { length raw.now ≤ 64 }
    ensures made { IsMade (datasets_answer 0 raw.now) result }
    ensures series { IfOk result AreSeries }
{
    let mut made = List::with_capacity(alloc, raw.len())?;
    for number in 0..raw.len() {
        made.push(dataset(alloc, number as u32, &raw[number])?)?;
    }
    Ok(made)
}
