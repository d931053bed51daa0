//! What a report tells of a run.

ghost use Rattle.std.specs.Prelude.{◌≡◌, IsTrue, IfOk};
ghost use Rattle.std.specs.List.{list_all};
ghost use Rattle.constraints.specs.OfModel.{is_constraint};
ghost use Rattle.findings.specs.Found.{AreFindings, all_violations};
ghost use Rattle.profiles.specs.OfRuns.{AreProfilesOf};
ghost use Rattle.run_data.specs.Fresh.{IsFresh};
ghost use Rattle.span_table.specs.SpanLaws.{AreSpansOf};

use crate::reported_run::ReportedRun;
use aerie_base::{List, Model, OutOfMemory, Shared};
use constraints::{Constraint, Violation, violations_beside};
use profiles::Profile;
use run_data::{Kept, Run};
use span_table::Span;
use std::alloc::Global;

/// What is found on a run.
#[derive(Drop)]
pub struct Findings {
    /// Its spans, by start and then by path.
    pub spans: List<Span>,
    /// The profile of each resource of the model, in the order of their declarations.
    pub profiles: List<Profile>,
    /// The violations of each constraint, in the order of the constraints.
    pub violations: List<List<Violation>>,
}

/// What is found on a kept run with these constraints, each thing once. What was found on the run that was reported before serves
/// again: all of it on the same run, and on another run of its model the spans of what both have in common.
pub fn find_after(
    alloc: Global,
    kept: &Shared<Kept>,
    before: Option<ReportedRun>,
    constraints: &[Constraint],
) -> Result<Findings, OutOfMemory>
    requires constraints { IsTrue (list_all (is_constraint kept.now.model) constraints.now) }
    ensures { IfOk result (AreFindings kept.now.model kept.now.run constraints.now) }
{
    let (model, run) = (kept.get().model().get(), kept.get().run());
    let ReportedRun {
        spans,
        profiles,
        ..
    } = ReportedRun::after(alloc, kept, before)?;
    let violations = violations_of(
        alloc,
        model,
        run,
        spans.as_slice(),
        profiles.as_slice(),
        constraints,
    )?;
    Ok(Findings {
        spans,
        profiles,
        violations,
    })
}

/// The violations of each constraint by a run with these spans and profiles.
fn violations_of(
    alloc: Global,
    model: &Model,
    run: &Run,
    spans: &[Span],
    profiles: &[Profile],
    constraints: &[Constraint],
) -> Result<List<List<Violation>>, OutOfMemory>
    requires fresh { IsFresh model.now run.now.plan run.now.bound run.now }
    requires spans { AreSpansOf model.now run.now spans.now }
    requires profiles { AreProfilesOf model.now run.now profiles.now }
    requires constraints { IsTrue (list_all (is_constraint model.now) constraints.now) }
    ensures { IfOk result (λ found. found ≡ all_violations model.now run.now constraints.now) }
{
    let mut found = List::with_capacity(alloc, constraints.len())?;
    for constraint in constraints {
        let one = violations_beside(alloc, model, run, spans, profiles, constraint)?;
        found.push(one)?;
    }
    Ok(found)
}
