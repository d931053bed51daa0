//! How what a workspace answers is written.

ghost use Rattle.std.specs.Prelude.{◌≡◌, ◌++◌, OnOk, codes};
ghost use Rattle.json_line.specs.Parts.{data_tokens, member_tokens};
ghost use Rattle.refusal_text.specs.EditRefusals.{migrate_data};
ghost use Rattle.refusal_text.specs.Named.{named_data};
ghost use Rattle.report_text.specs.Replies.{added_data, branch_data, loaded_data, merged_data, reply_member, revision_data, shown_data, stale_data};

use crate::reports::write_name_told;
use crate::wordings::Wording;
use aerie_base::{List, Model, Name, OutOfMemory, Plan};
use hangar_core::Reply;
use json_line::{JsonData, JsonIn, JsonLine};
use plan_edit::MigrateError;
use refusal_text::{AsRefusal, write_named};
use std::alloc::Global;

/// A branch that is gone.
#[derive(Drop)]
struct Gone<'b> {
    branch: &'b Name,
}

impl<'b> JsonData for Gone<'b> {
    ghost as_data = { λ told. branch_data told.branch.now };

    #[tactic(auto, using(json_line::proofs::Steps::part_by_part))]
    fn write(&self, line: &mut JsonLine) -> Result<(), OutOfMemory> {
        line.begin_object()?;
        line.member("branch", self.branch)?;
        line.end_object()
    }
}

/// A branch at a revision.
#[derive(Drop)]
struct Revised<'b> {
    branch: &'b Name,
    revision: u64,
}

impl<'b> JsonData for Revised<'b> {
    ghost as_data = { λ told. revision_data told.branch.now told.revision };

    #[tactic(auto, using(json_line::proofs::Steps::part_by_part))]
    fn write(&self, line: &mut JsonLine) -> Result<(), OutOfMemory> {
        line.begin_object()?;
        line.member("branch", self.branch)?;
        line.member("revision", &self.revision)?;
        line.end_object()
    }
}

/// A directive that is added.
#[derive(Drop)]
struct Addition<'b> {
    branch: &'b Name,
    id: u32,
    revision: u64,
}

impl<'b> JsonData for Addition<'b> {
    ghost as_data = { λ told. added_data told.branch.now told.id told.revision };

    fn write(&self, line: &mut JsonLine) -> Result<(), OutOfMemory> {
        line.begin_object()?;
        line.member("branch", self.branch)?;
        line.member("id", &self.id)?;
        line.member("revision", &self.revision)?;
        line.end_object()
    }
}

/// Directives that are loaded.
#[derive(Drop)]
struct Load<'b> {
    branch: &'b Name,
    count: u32,
    first: u32,
    revision: u64,
}

impl<'b> JsonData for Load<'b> {
    ghost as_data = { λ told. loaded_data told.branch.now told.count told.first told.revision };

    fn write(&self, line: &mut JsonLine) -> Result<(), OutOfMemory> {
        line.begin_object()?;
        line.member("branch", self.branch)?;
        line.member("count", &self.count)?;
        line.member("first", &self.first)?;
        line.member("revision", &self.revision)?;
        line.end_object()
    }
}

/// A merge: what it added.
#[derive(Drop)]
pub(crate) struct MergeTold<'b> {
    pub(crate) branch: &'b Name,
    pub(crate) added: &'b List<u32>,
    pub(crate) revision: u64,
}

impl<'b> JsonData for MergeTold<'b> {
    ghost as_data = { λ told. merged_data told.branch.now told.added.now told.revision };

    fn write(&self, line: &mut JsonLine) -> Result<(), OutOfMemory> {
        line.begin_object()?;
        line.member("added", self.added)?;
        line.member("branch", self.branch)?;
        line.member("revision", &self.revision)?;
        line.end_object()
    }
}

/// A branch that is no longer as it was fetched.
#[derive(Drop)]
struct Stale {
    seen: u64,
    now: u64,
}

impl JsonData for Stale {
    ghost as_data = { λ told. stale_data told.seen told.now };

    fn write(&self, line: &mut JsonLine) -> Result<(), OutOfMemory> {
        line.begin_object()?;
        line.text_member("name", "Stale")?;
        line.member("now", &self.now)?;
        line.member("seen", &self.seen)?;
        line.end_object()
    }
}

/// A plan that is shown.
fn write_shown<'a>(
    line: &mut JsonLine,
    wording: &Wording<'a>,
    branch: &Name,
    named: bool,
    revision: u64,
    plan: &Plan,
) -> Result<(), OutOfMemory>
    ensures { OnOk result (line.new ≡ line.old ++ data_tokens (shown_data branch.now wording.now named revision plan.now)) }
{
    line.begin_object()?;
    line.member("branch", branch)?;
    write_name_told(line, named, wording.model())?;
    line.member_in("plan", wording, plan)?;
    line.member("revision", &revision)?;
    line.end_object()
}

/// A plan of a model that is shown, under `ok`.
#[tactic(auto, unfolding(json_line::specs::Parts::member_tokens))]
fn write_plan(
    line: &mut JsonLine,
    alloc: Global,
    branch: &Name,
    model: &Model,
    named: bool,
    revision: u64,
    plan: &Plan,
) -> Result<(), OutOfMemory>
    ensures { OnOk result (line.new ≡ line.old ++ member_tokens (codes "ok") (shown_data branch.now model.now named revision plan.now)) }
{
    let wording = Wording::new(alloc, model)?;
    line.key("ok")?;
    write_shown(line, &wording, branch, named, revision, plan)
}

/// A branch at a revision, under `ok`.
fn write_revised(line: &mut JsonLine, branch: &Name, revision: u64) -> Result<(), OutOfMemory>
    ensures { OnOk result (line.new ≡ line.old ++ member_tokens (codes "ok") (revision_data branch.now revision)) }
{
    line.member("ok", &Revised { branch, revision })
}

/// What is told by its name alone, under `refused`.
#[tactic(auto, unfolding(json_line::specs::Parts::member_tokens))]
pub(crate) fn refuse(line: &mut JsonLine, name: &str) -> Result<(), OutOfMemory>
    ensures { OnOk result (line.new ≡ line.old ++ member_tokens (codes "refused") (named_data name.now)) }
{
    line.key("refused")?;
    write_named(line, name)
}

/// Why a plan could not be taken to another model, under `refused`.
fn refuse_migration(line: &mut JsonLine, error: MigrateError) -> Result<(), OutOfMemory>
    ensures { OnOk result (line.new ≡ line.old ++ member_tokens (codes "refused") (migrate_data error)) }
{
    line.member_in("refused", &AsRefusal, &error)
}

/// What a workspace answered to an action on a branch, which it shows by a model.
pub(crate) fn write_reply(
    line: &mut JsonLine,
    alloc: Global,
    branch: &Name,
    model: &Model,
    named: bool,
    reply: &Reply,
) -> Result<(), OutOfMemory>
    ensures { OnOk result (line.new ≡ line.old ++ member_tokens (reply_member branch.now model.now named reply.now).0 (reply_member branch.now model.now named reply.now).1) }
{
    match reply {
        Reply::Opened { revision } => write_revised(line, branch, *revision),
        Reply::Dropped | Reply::Attached => line.member("ok", &Gone { branch }),
        Reply::Added { id, revision } => line.member(
            "ok",
            &Addition {
                branch,
                id: *id,
                revision: *revision,
            },
        ),
        Reply::Edited { revision } => write_revised(line, branch, *revision),
        Reply::Loaded {
            first,
            count,
            revision,
        } => line.member(
            "ok",
            &Load {
                branch,
                count: *count,
                first: *first,
                revision: *revision,
            },
        ),
        Reply::Fetched { revision, plan, .. } => {
            write_plan(line, alloc, branch, model, named, *revision, plan.get())
        }
        Reply::Placed { revision } => write_revised(line, branch, *revision),
        Reply::NoBranch => refuse(line, "NoBranch"),
        Reply::BranchExists => refuse(line, "BranchExists"),
        Reply::TooManyBranches => refuse(line, "TooManyBranches"),
        Reply::NoMapping => refuse(line, "NoMapping"),
        Reply::Unmapped { id } => refuse_migration(line, MigrateError::Unmapped { id: *id }),
        Reply::Misfit { id, number } => refuse_migration(
            line,
            MigrateError::Misfit {
                id: *id,
                number: *number,
            },
        ),
        Reply::Edit(error) => line.member_in("refused", &AsRefusal, error),
        Reply::Stale { seen, now } => line.member(
            "refused",
            &Stale {
                seen: *seen,
                now: *now,
            },
        ),
    }
}
