//! The form of a dataset.

ghost use Rattle.std.specs.Prelude.{◌≡◌, map, option_map};
ghost use Rattle.serde_json.specs.View.{view};
ghost use Rattle.serde_json.specs.Find.{as_object};
ghost use Rattle.std.specs.List.{list_all};
ghost use Rattle.dataset_in.specs.Datasets.{kind_and_rows, has_two, is_row, kind_member, segments_member, series_kind_of as kind_by_word, width as width_of};

use serde_json::Value;

/// What a dataset is a series of.
#[derive(Clone, Copy, Debug, PartialEq, Eq)]
pub(crate) enum SeriesKind {
    /// Truths.
    Truth,
    /// Whole numbers.
    Whole,
    /// Numbers that rise or fall evenly.
    Linear,
}

/// The kind of a series, by its word.
fn series_kind_of(word: &str) -> Option<SeriesKind>
    ensures { result ≡ kind_by_word word.now }
{
    match word {
        "truth" => Some(SeriesKind::Truth),
        "whole" => Some(SeriesKind::Whole),
        "linear" => Some(SeriesKind::Linear),
        _ => None,
    }
}

/// How many parts a segment of the kind has.
fn width(kind: SeriesKind) -> usize
    ensures { result ≡ width_of kind }
{
    match kind {
        SeriesKind::Truth | SeriesKind::Whole => 2,
        SeriesKind::Linear => 3,
    }
}

/// Whether it is a list of so many parts.
fn is_list_of(row: &Value, count: usize) -> bool
    ensures { result ≡ is_row count (view row.now) }
{
    match row.as_array() {
        Some(parts) => parts.len() == count,
        None => false,
    }
}

/// Whether each is a list of so many parts.
fn are_lists_of(rows: &[Value], count: usize) -> bool
    ensures { result ≡ list_all (is_row count) (map view rows.now) }
{
    for row in rows {
        if !is_list_of(row, count) {
            return false;
        }
    }
    true
}

/// Whether it is an object with two members.
#[tactic(auto, using(crate::proofs::Counting::as_many_members))]
fn has_two_members(dataset: &Value) -> bool
    ensures { result ≡ has_two (as_object (view dataset.now)) }
{
    match dataset.as_object() {
        Some(members) => members.len() == 2,
        None => false,
    }
}

/// The kind that the member `kind` says.
fn kind_member(dataset: &Value) -> Option<SeriesKind>
    ensures { result ≡ kind_member (view dataset.now) }
{
    series_kind_of(dataset.get("kind")?.as_str()?)
}

/// The list in the member `segments`.
#[tactic(auto, using(crate::proofs::Counting::rows_are_items))]
fn segments_member(dataset: &Value) -> Option<&[Value]>
    ensures { option_map (λ rows. map view rows.now) result ≡ segments_member (view dataset.now) }
{
    Some(dataset.get("segments")?.as_array()?.as_slice())
}

/// The kind and the segments of a dataset, each a list of as many parts as the kind has.
pub(crate) fn dataset_form(dataset: &Value) -> Option<(SeriesKind, &[Value])>
    ensures { option_map (λ form. (form.0, map view form.1.now)) result ≡ kind_and_rows (view dataset.now) }
{
    if !has_two_members(dataset) {
        return None;
    }
    let kind = kind_member(dataset)?;
    let rows = segments_member(dataset)?;
    if are_lists_of(rows, width(kind)) {
        Some((kind, rows))
    } else {
        None
    }
}
