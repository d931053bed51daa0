//! How the report of a simulation is written.

ghost use Rattle.std.specs.Prelude.{◌≡◌, ◌++◌, OnOk, codes, option_map};
ghost use Rattle.serde_json.specs.Data.{string};
ghost use Rattle.aerie_base.specs.plans.OfModel.{IsPlanOf};
ghost use Rattle.run_data.specs.Fresh.{IsFresh};
ghost use Rattle.findings.specs.Found.{AreFindings, all_profiles};
ghost use Rattle.json_line.specs.Parts.{data_tokens, member_if_tokens, member_tokens};
ghost use Rattle.span_table.specs.SpanLaws.{AreSpansOf};
ghost use Rattle.report_text.specs.ProfileLines.{profiles_data};
ghost use Rattle.report_text.specs.Reports.{name_told, report_data};
ghost use Rattle.report_text.specs.SpanLines.{spans_data};
ghost use Rattle.report_text.specs.Violations.{violations_data};

use crate::answers::Report;
use crate::details::{write_details_told, write_start_told};
use crate::profile_lines::write_profiles;
use crate::span_lines::{Calendar, write_spans};
use crate::violation_lines::write_violations;
use crate::wordings::Wording;
use aerie_base::{Model, Name, OutOfMemory};
use constraints::Constraint;
use findings::Findings;
use json_line::JsonLine;
use profiles::Profile;
use run_data::Run;
use span_table::Span;

/// The name of a model, where it is told.
#[tactic(auto, unfolding(json_line::specs::Parts::member_if_tokens))]
pub(crate) fn write_name_told(
    line: &mut JsonLine,
    named: bool,
    model: &Model,
) -> Result<(), OutOfMemory>
    ensures { OnOk result (line.new ≡ line.old ++ member_if_tokens (codes "model") (option_map string (name_told named model.now))) }
{
    if named {
        return line.member("model", model.name());
    }
    Ok(())
}

/// The profiles of a run, by their name.
#[tactic(auto, unfolding(json_line::specs::Parts::member_tokens))]
fn write_profiles_member<'a>(
    line: &mut JsonLine,
    wording: &Wording<'a>,
    run: &Run,
    profiles: &[Profile],
) -> Result<(), OutOfMemory>
    requires { profiles.now ≡ all_profiles wording.now run.now }
    ensures { OnOk result (line.new ≡ line.old ++ member_tokens (codes "profiles") (profiles_data wording.now run.now)) }
{
    line.key("profiles")?;
    write_profiles(line, wording, run, profiles)
}

/// The spans of a run, by their name.
#[tactic(auto, unfolding(json_line::specs::Parts::member_tokens))]
fn write_spans_member<'a>(
    line: &mut JsonLine,
    calendar: &Calendar<'a>,
    run: &Run,
    spans: &[Span],
) -> Result<(), OutOfMemory>
    requires spans { AreSpansOf calendar.now.wording run.now spans.now }
    ensures { OnOk result (line.new ≡ line.old ++ member_tokens (codes "spans") (spans_data calendar.now.wording calendar.now.start run.now)) }
{
    line.key("spans")?;
    write_spans(line, calendar, run, spans)
}

/// The violations of a run, by their name.
#[tactic(auto, unfolding(json_line::specs::Parts::member_tokens))]
fn write_violations_member<'a>(
    line: &mut JsonLine,
    wording: &Wording<'a>,
    run: &Run,
    detail: bool,
    constraints: &[Constraint],
    findings: &Findings,
) -> Result<(), OutOfMemory>
    requires { AreFindings wording.now run.now constraints.now findings.now }
    ensures { OnOk result (line.new
        ≡ line.old ++ member_tokens
        (codes "violations") (violations_data detail wording.now run.now constraints.now)) }
{
    line.key("violations")?;
    write_violations(line, wording, run, detail, constraints, findings)
}

/// The report of a simulation of a branch, with what the caller has found on its run.
pub(crate) fn write_report<'a>(
    line: &mut JsonLine,
    calendar: &Calendar<'a>,
    branch: &Name,
    named: bool,
    report: &Report,
    findings: &Findings,
) -> Result<(), OutOfMemory>
    requires model { report.now.run.model ≡ calendar.now.wording }
    requires start { calendar.now.start ≡ report.now.start }
    requires found { AreFindings calendar.now.wording report.now.run.run report.now.constraints findings.now }
    ensures { OnOk result (line.new ≡ line.old ++ data_tokens (report_data branch.now calendar.now.wording named report.now)) }
{
    let run = report.run.get().run();
    let constraints = report.constraints.get().as_slice();
    write_found(
        line,
        calendar,
        branch,
        named,
        report,
        run,
        constraints,
        findings,
    )
}

/// The same by the run and the constraints of the report.
fn write_found<'a>(
    line: &mut JsonLine,
    calendar: &Calendar<'a>,
    branch: &Name,
    named: bool,
    report: &Report,
    run: &Run,
    constraints: &[Constraint],
    findings: &Findings,
) -> Result<(), OutOfMemory>
    requires start { calendar.now.start ≡ report.now.start }
    requires run { run.now ≡ report.now.run.run }
    requires fresh { IsFresh calendar.now.wording run.now.plan run.now.bound run.now }
    requires plan { IsPlanOf calendar.now.wording run.now.plan }
    requires constraints { constraints.now ≡ report.now.constraints }
    requires found { AreFindings calendar.now.wording run.now constraints.now findings.now }
    ensures { OnOk result (line.new ≡ line.old ++ data_tokens (report_data branch.now calendar.now.wording named report.now)) }
{
    let wording = &calendar.wording;
    line.begin_object()?;
    line.member("attached", &report.attached)?;
    line.member("branch", branch)?;
    write_details_told(line, report.detail, wording, run, constraints)?;
    write_name_told(line, named, wording.model())?;
    line.member_in("outcome", wording, &run.outcome)?;
    write_profiles_member(line, wording, run, findings.profiles.as_slice())?;
    line.member("reach", &run.reach)?;
    line.member("revision", &report.revision)?;
    write_spans_member(line, calendar, run, findings.spans.as_slice())?;
    write_start_told(line, report.detail, &report.start)?;
    line.member_if("statements", &report.statements)?;
    write_violations_member(line, wording, run, report.detail, constraints, findings)?;
    line.end_object()
}
