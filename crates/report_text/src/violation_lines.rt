//! How violations are written.

ghost use Rattle.std.specs.Prelude.{◌≡◌, ◌++◌, OnOk, flat_map, map};
ghost use Rattle.constraints.specs.Violating.{violations_of};
ghost use Rattle.findings.specs.Found.{AreFindings, all_violations};
ghost use Rattle.json_line.specs.Parts.{data_tokens, listed_tokens};
ghost use Rattle.report_text.specs.Violations.{constraint_data, detailed_violation_data, interval_data, interval_with, intervals_data, meeting_violation_data, paired_data, paired_list_data, pair_data, plain_violation_data, violation_by, violations_data};
ghost use Rattle.span_table.specs.SpanLaws.{AreSpansOf};

use crate::alone::Alone;
use crate::wordings::Wording;
use aerie_base::{List, Name, OutOfMemory, Path, Time};
use constraints::{Constraint, Rule, Violation};
use findings::{Findings, PairedInterval, paired_intervals};
use json_line::{JsonData, JsonIn, JsonLine};
use run_data::Run;
use span_table::Span;
use windows::Windows;

/// An interval of time.
impl JsonIn<Alone> for (Time, Time) {
    ghost data_in = { λ _ interval. interval_data interval };

    #[tactic(auto, using(json_line::proofs::Steps::part_by_part))]
    fn write_in(&self, _alone: &Alone, line: &mut JsonLine) -> Result<(), OutOfMemory> {
        line.begin_array()?;
        self.0.write(line)?;
        self.1.write(line)?;
        line.end_array()
    }
}

/// The intervals of a set of times.
impl JsonIn<Alone> for Windows {
    ghost data_in = { λ _ times. intervals_data times.intervals };

    fn write_in(&self, alone: &Alone, line: &mut JsonLine) -> Result<(), OutOfMemory> {
        line.list_in(alone, self.intervals())
    }
}

/// The paths of two spans.
impl JsonIn<Alone> for (Path, Path) {
    ghost data_in = { λ _ pair. pair_data pair };

    #[tactic(auto, using(json_line::proofs::Steps::part_by_part))]
    fn write_in(&self, _alone: &Alone, line: &mut JsonLine) -> Result<(), OutOfMemory> {
        line.begin_array()?;
        self.0.write(line)?;
        self.1.write(line)?;
        line.end_array()
    }
}

/// An interval with something behind its times.
fn write_with<T: JsonIn<Alone>>(
    line: &mut JsonLine,
    alone: &Alone,
    from: Time,
    to: Time,
    behind: &T,
) -> Result<(), OutOfMemory>
    ensures { OnOk result (line.new
        ≡ line.old ++ data_tokens (interval_with from to (T.data_in alone.now behind.now))) }
{
    line.begin_array()?;
    from.write(line)?;
    to.write(line)?;
    behind.write_in(alone, line)?;
    line.end_array()
}

/// An interval with two spans that meet at its beginning, if any do.
impl JsonIn<Alone> for PairedInterval {
    ghost data_in = { λ _ interval. paired_data interval };

    fn write_in(&self, alone: &Alone, line: &mut JsonLine) -> Result<(), OutOfMemory> {
        match &self.pair {
            Some(pair) => write_with(line, alone, self.from, self.to, pair),
            None => (self.from, self.to).write_in(alone, line),
        }
    }
}

/// The constraint of which violations are written.
#[derive(Drop)]
struct Violated<'b> {
    constraint: &'b Name,
}

impl<'b> JsonIn<Violated<'b>> for Violation {
    ghost data_in = { λ violated violation. plain_violation_data violated.constraint.now violation };

    fn write_in(&self, violated: &Violated<'b>, line: &mut JsonLine) -> Result<(), OutOfMemory> {
        line.begin_object()?;
        line.member("constraint", violated.constraint)?;
        line.member_in("intervals", &Alone, &self.intervals)?;
        line.member("path", &self.path)?;
        line.end_object()
    }
}

/// A violation by its intervals, with two spans that meet at the beginning of each.
fn write_paired(
    line: &mut JsonLine,
    constraint: &Name,
    path: &Option<Path>,
    intervals: &List<PairedInterval>,
) -> Result<(), OutOfMemory>
    ensures { OnOk result (line.new
        ≡ line.old ++ data_tokens (violation_by constraint.now path.now (paired_list_data intervals.now))) }
{
    line.begin_object()?;
    line.member("constraint", constraint)?;
    line.member_in("intervals", &Alone, intervals)?;
    line.member("path", path)?;
    line.end_object()
}

/// A violation of two types that exclude one another.
fn write_meeting<'a>(
    line: &mut JsonLine,
    wording: &Wording<'a>,
    run: &Run,
    spans: &[Span],
    constraint: &Name,
    types: (u16, u16),
    violation: &Violation,
) -> Result<(), OutOfMemory>
    requires spans { AreSpansOf wording.now run.now spans.now }
    ensures { OnOk result (line.new ≡ line.old ++ data_tokens
        (meeting_violation_data wording.now run.now constraint.now types.0 types.1 violation.now)) }
{
    let alloc = wording.alloc();
    let model = wording.model();
    let times = &violation.intervals;
    let intervals = paired_intervals(alloc, model, run, spans, types, times)?;
    write_paired(line, constraint, &violation.path, &intervals)
}

/// The violations of two types that exclude one another.
fn write_meetings<'a>(
    line: &mut JsonLine,
    wording: &Wording<'a>,
    run: &Run,
    spans: &[Span],
    constraint: &Name,
    types: (u16, u16),
    found: &[Violation],
) -> Result<(), OutOfMemory>
    requires spans { AreSpansOf wording.now run.now spans.now }
    ensures { OnOk result (line.new
        ≡ line.old ++ listed_tokens
        (map (meeting_violation_data wording.now run.now constraint.now types.0 types.1) found.now)) }
{
    for violation in found {
        write_meeting(line, wording, run, spans, constraint, types, violation)?;
    }
    Ok(())
}

/// The violations of a constraint by a run, where details are told.
fn write_detailed<'a>(
    line: &mut JsonLine,
    wording: &Wording<'a>,
    run: &Run,
    spans: &[Span],
    constraint: &Constraint,
    found: &[Violation],
) -> Result<(), OutOfMemory>
    requires spans { AreSpansOf wording.now run.now spans.now }
    ensures { OnOk result (line.new
        ≡ line.old ++ listed_tokens
        (map (detailed_violation_data wording.now run.now constraint.now.name constraint.now.rule)
        found.now)) }
{
    let name = &constraint.name;
    match &constraint.rule {
        Rule::Forbid(one, other) => {
            write_meetings(line, wording, run, spans, name, (*one, *other), found)
        }
        Rule::Plain(_) | Rule::Each { .. } => line.items_in(&Violated { constraint: name }, found),
    }
}

/// The violations of a constraint by a run, which the caller has found.
fn write_constraint<'a>(
    line: &mut JsonLine,
    wording: &Wording<'a>,
    run: &Run,
    detail: bool,
    spans: &[Span],
    constraint: &Constraint,
    found: &[Violation],
) -> Result<(), OutOfMemory>
    requires spans { AreSpansOf wording.now run.now spans.now }
    requires found { found.now ≡ violations_of wording.now run.now constraint.now }
    ensures { OnOk result (line.new
        ≡ line.old ++ listed_tokens (constraint_data detail wording.now run.now constraint.now)) }
{
    let _ = wording.alloc();
    let _ = run.instants.as_slice();
    if detail {
        return write_detailed(line, wording, run, spans, constraint, found);
    }
    let violated = Violated {
        constraint: &constraint.name,
    };
    line.items_in(&violated, found)
}

/// The violations of each constraint, one behind another.
fn write_constraints<'a>(
    line: &mut JsonLine,
    wording: &Wording<'a>,
    run: &Run,
    detail: bool,
    spans: &[Span],
    constraints: &[Constraint],
    found: &[List<Violation>],
) -> Result<(), OutOfMemory>
    requires spans { AreSpansOf wording.now run.now spans.now }
    requires found { found.now ≡ all_violations wording.now run.now constraints.now }
    ensures { OnOk result (line.new
        ≡ line.old ++ listed_tokens (flat_map (constraint_data detail wording.now run.now) constraints.now)) }
{
    for number in 0..constraints.len() {
        let violations = found[number].as_slice();
        write_constraint(
            line,
            wording,
            run,
            detail,
            spans,
            &constraints[number],
            violations,
        )?;
    }
    Ok(())
}

/// The violations of constraints of a model by a run, in the order of the constraints, which the caller has found on the run.
/// Where details are told, those of two types that exclude one another have the spans that meet.
pub fn write_violations<'a>(
    line: &mut JsonLine,
    wording: &Wording<'a>,
    run: &Run,
    detail: bool,
    constraints: &[Constraint],
    findings: &Findings,
) -> Result<(), OutOfMemory>
    requires { AreFindings wording.now run.now constraints.now findings.now }
    ensures { OnOk result (line.new
        ≡ line.old ++ data_tokens (violations_data detail wording.now run.now constraints.now)) }
{
    let spans = findings.spans.as_slice();
    let found = findings.violations.as_slice();
    line.begin_array()?;
    write_constraints(line, wording, run, detail, spans, constraints, found)?;
    line.end_array()
}
