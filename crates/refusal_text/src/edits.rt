//! How refusals of edits, migrations, merges and datasets are written.

ghost use Rattle.std.specs.Prelude.{◌≡◌, ◌++◌, List, OnOk};
ghost use Rattle.json_line.specs.Parts.{data_tokens};
ghost use Rattle.refusal_text.specs.EditRefusals.{anchored_data, bad_argument_data, conflict_data, conflict_word, conflicts_data, dataset_refusal_data, edit_data, merge_refusal_data, migrate_data, misfit_data, unmapped_data};

use crate::named::{write_named, write_numbered};
use aerie_base::{List, Name, OutOfMemory};
use dataset_in::DatasetError;
use json_line::{JsonIn, JsonLine};
use plan_edit::{EditError, MigrateError};
use plan_merge::{Conflict, ConflictKind, MergeError};

/// What errors of other crates are written by: each as the refusal that it is told as.
#[derive(Drop)]
pub struct AsRefusal;

/// The parameter whose argument is bad.
#[tactic(auto, using(json_line::proofs::Steps::part_by_part))]
fn write_bad_argument(line: &mut JsonLine, parameter: &Name) -> Result<(), OutOfMemory>
    ensures { OnOk result (line.new ≡ line.old ++ data_tokens (bad_argument_data parameter.now)) }
{
    line.begin_object()?;
    line.text_member("name", "BadArgument")?;
    line.member("parameter", parameter)?;
    line.end_object()
}

/// The directive that is anchored to one that was to be removed.
#[tactic(auto, using(json_line::proofs::Steps::part_by_part))]
fn write_anchored(line: &mut JsonLine, by: u32) -> Result<(), OutOfMemory>
    ensures { OnOk result (line.new ≡ line.old ++ data_tokens (anchored_data by)) }
{
    line.begin_object()?;
    line.member("by", &by)?;
    line.text_member("name", "Anchored")?;
    line.end_object()
}

impl JsonIn<AsRefusal> for EditError {
    ghost data_in = { λ _ error. edit_data error };

    fn write_in(&self, _as: &AsRefusal, line: &mut JsonLine) -> Result<(), OutOfMemory> {
        match self {
            EditError::NoDirective => write_named(line, "NoDirective"),
            EditError::UnknownType => write_named(line, "UnknownType"),
            EditError::BadArgument { parameter } => write_bad_argument(line, parameter),
            EditError::Invalid { number } => write_numbered(line, "Invalid", *number),
            EditError::OutsidePlan => write_named(line, "OutsidePlan"),
            EditError::TooMany => write_named(line, "TooMany"),
            EditError::NotAPlan => write_named(line, "NotAPlan"),
            EditError::OutOfMemory => write_named(line, "OutOfMemory"),
            EditError::NoAnchor => write_named(line, "NoAnchor"),
            EditError::Cycle => write_named(line, "Cycle"),
            EditError::Anchored { by } => write_anchored(line, *by),
        }
    }
}

/// The directive for whose type there is no rule.
#[tactic(auto, using(json_line::proofs::Steps::part_by_part))]
fn write_unmapped(line: &mut JsonLine, id: u32) -> Result<(), OutOfMemory>
    ensures { OnOk result (line.new ≡ line.old ++ data_tokens (unmapped_data id)) }
{
    line.begin_object()?;
    line.member("id", &id)?;
    line.text_member("name", "Unmapped")?;
    line.end_object()
}

/// The directive whose new type has a `require` that is not true.
fn write_misfit(line: &mut JsonLine, id: u32, number: u32) -> Result<(), OutOfMemory>
    ensures { OnOk result (line.new ≡ line.old ++ data_tokens (misfit_data id number)) }
{
    line.begin_object()?;
    line.member("id", &id)?;
    line.text_member("name", "Misfit")?;
    line.member("number", &number)?;
    line.end_object()
}

impl JsonIn<AsRefusal> for MigrateError {
    ghost data_in = { λ _ error. migrate_data error };

    fn write_in(&self, _as: &AsRefusal, line: &mut JsonLine) -> Result<(), OutOfMemory> {
        match self {
            MigrateError::Unmapped { id } => write_unmapped(line, *id),
            MigrateError::Misfit { id, number } => write_misfit(line, *id, *number),
            MigrateError::OutOfMemory => write_named(line, "OutOfMemory"),
        }
    }
}

/// The word that tells why a directive could not be merged.
fn conflict_word(kind: ConflictKind) -> &'static str
    ensures { result.now ≡ conflict_word kind }
{
    match kind {
        ConflictKind::Both => "both",
        ConflictKind::Removed => "removed",
        ConflictKind::Anchor => "anchor",
        ConflictKind::Cycle => "cycle",
    }
}

impl JsonIn<AsRefusal> for Conflict {
    ghost data_in = { λ _ conflict. conflict_data conflict };

    #[tactic(auto, using(json_line::proofs::Steps::part_by_part))]
    fn write_in(&self, _as: &AsRefusal, line: &mut JsonLine) -> Result<(), OutOfMemory> {
        line.begin_object()?;
        line.member("id", &self.id)?;
        line.text_member("kind", conflict_word(self.kind))?;
        line.end_object()
    }
}

/// The conflicts of a merge.
#[tactic(auto, using(json_line::proofs::Steps::part_by_part))]
fn write_conflicts(line: &mut JsonLine, conflicts: &List<Conflict>) -> Result<(), OutOfMemory>
    ensures { OnOk result (line.new ≡ line.old ++ data_tokens (conflicts_data conflicts.now)) }
{
    line.begin_object()?;
    line.member_in("conflicts", &AsRefusal, conflicts)?;
    line.text_member("name", "Conflicts")?;
    line.end_object()
}

impl JsonIn<AsRefusal> for MergeError {
    ghost data_in = { λ _ error. merge_refusal_data error };

    fn write_in(&self, _as: &AsRefusal, line: &mut JsonLine) -> Result<(), OutOfMemory> {
        match self {
            MergeError::Conflicts(conflicts) => write_conflicts(line, conflicts),
            MergeError::TooMany => write_named(line, "TooMany"),
            MergeError::OutOfMemory => write_named(line, "OutOfMemory"),
        }
    }
}

impl JsonIn<AsRefusal> for DatasetError {
    ghost data_in = { λ _ error. dataset_refusal_data error };

    fn write_in(&self, _as: &AsRefusal, line: &mut JsonLine) -> Result<(), OutOfMemory> {
        match self {
            DatasetError::NotADataset => write_named(line, "NotADataset"),
            DatasetError::TooMany => write_named(line, "TooMany"),
            DatasetError::BadSegment { number } => write_numbered(line, "BadSegment", *number),
            DatasetError::OutOfMemory => write_named(line, "OutOfMemory"),
        }
    }
}
