//! What the program writes, and the status that it ends with where all of it is written.

ghost use Rattle.std.specs.Prelude.{◌≡◌, ◌≤◌, ◌<◌, IfOk, string_bytes};
ghost use Rattle.aerie_base.specs.Ranges.{step_limit};
ghost use Rattle.command_line.specs.Invocations.{HasNumbersWithin};
ghost use Rattle.session_judge.specs.Judging.{judged_session};
ghost use Rattle.session_run.specs.Ruled.{CanBePerformed};
ghost use Rattle.aerie.specs.Program.{HasRun, IsCheckAnswer, IsExplained, IsMadeAnswer, IsRefusedSession, IsRunAnswer, answer_with, counted_from, report_form, named_answer, refused_answer, summary_text};
ghost use Rattle.aerie.specs.declared.exit_status.ExitStatus.TheVariants.{Done};

use crate::exit_status::ExitStatus;
use aerie_base::{OutOfMemory, Steps};
use aerie_edge::Gate;
use client_work::ReportForm;
use command_line::Invocation;
use explain::explanation;
use hint_trials::hints;
use refusal_text::{Refusal, refusal_line};
use session_judge::{JudgeError, JudgedSession, accepted_line, judge, named_refusal};
use session_make::make;
use session_run::{perform, perform_in_turn, summarize_in_turn, summary_line};
use std::alloc::Global;
use std::marker::{Brand, Model};
use std::sync::Wait;
use std::sync::ledger::{Blank, Ledger};
use std::thread::Threads;

/// What is written, and the status where all of it is written.
#[derive(Drop)]
pub struct Output {
    status: ExitStatus,
    text: String,
}

impl Model for Output {
    ghost use Rattle.std.specs.Prelude.{string_bytes};
    ghost use Rattle.aerie.specs.Program.{ProgramAnswer};

    ghost Value = { ProgramAnswer };

    ghost view = { λ output. record { status = output.status; text = string_bytes output.text } };
}

impl Output {
    /// The status where all of it is written.
    pub fn status(&self) -> ExitStatus
        ensures { result ≡ self.now.status }
    {
        self.status
    }

    /// What is written.
    pub fn bytes(&self) -> &[u8]
        ensures { result.now ≡ self.now.text }
    {
        self.text.as_bytes()
    }
}

/// What is refused.
fn refused(alloc: Global, status: ExitStatus, refusal: &Refusal) -> Result<Output, OutOfMemory>
    ensures { IfOk result (λ output. output ≡ refused_answer status refusal.now) }
{
    let text = refusal_line(alloc, refusal)?;
    Ok(Output { status, text })
}

/// What is refused by its name alone.
pub fn named(alloc: Global, status: ExitStatus, name: &str) -> Result<Output, OutOfMemory>
    ensures { IfOk result (λ output. output ≡ named_answer status name.now) }
{
    let refusal = named_refusal(alloc, name)?;
    refused(alloc, status, &refusal)
}

/// What explains why a session is refused, with hints of what takes it further.
fn explained(alloc: Global, input: &[u8], refusal: &Refusal) -> Result<Output, OutOfMemory>
    ensures { IfOk result (IsExplained input.now refusal.now) }
{
    let hints = hints(alloc, input, refusal)?;
    let text = explanation(alloc, input, refusal, hints.as_slice())?;
    Ok(Output {
        status: ExitStatus::Refused,
        text,
    })
}

/// A session is refused, and explained where that is asked for.
fn refused_session(
    alloc: Global,
    explain: bool,
    input: &[u8],
    refusal: &Refusal,
) -> Result<Output, OutOfMemory>
    ensures { IfOk result (IsRefusedSession explain input.now refusal.now) }
{
    if explain {
        explained(alloc, input, refusal)
    } else {
        refused(alloc, ExitStatus::Refused, refusal)
    }
}

/// A session is judged.
pub fn checked(alloc: Global, explain: bool, input: &[u8]) -> Result<Output, OutOfMemory>
    ensures { IfOk result (IsCheckAnswer explain input.now (judged_session input.now)) }
{
    match judge(alloc, input) {
        Ok(judged) => {
            let text = accepted_line(alloc, &judged.session)?;
            Ok(Output {
                status: ExitStatus::Done,
                text,
            })
        }
        Err(JudgeError::Refused(refusal)) => refused_session(alloc, explain, input, &refusal),
        Err(JudgeError::OutOfMemory) => Err(OutOfMemory),
    }
}

/// A generated session with so many directives is performed, its clients in turn, and summarized.
fn summarized<R: Threads + Wait + Sync, G: Gate, L: Ledger, K: Ledger>(
    alloc: Global,
    rt: &R,
    number: u32,
    limit: u64,
    pieces: u32,
    judged: &JudgedSession,
    gate: &G,
    steps: &mut Steps<L>,
    blank: Blank,
) -> Result<Output, OutOfMemory>
    requires limit { limit ≤ step_limit }
    requires session { CanBePerformed judged.now }
    requires name { blank.name ≡ K.name }
    requires parts { blank.parts ≡ K.parts }
    requires some { 0 < K.parts }
    ensures summarized { IfOk result (λ output.
        output ≡ answer_with Done (summary_text number limit judged.now)) }
    ensures steps { steps.old ≤ steps.new }
{
    let mut looks = Steps::<K>::open(blank);
    let summary = summarize_in_turn(alloc, rt, gate, judged, limit, pieces, steps, &mut looks)?;
    let text = summary_line(alloc, number, judged.session.clients.len(), summary)?;
    Ok(Output {
        status: ExitStatus::Done,
        text,
    })
}

/// A session is made. Where its text is not what is asked for, it is judged and performed as any session is.
pub fn made<R: Threads + Wait + Sync, G: Gate, L: Ledger>(
    alloc: Global,
    rt: &R,
    number: u32,
    text: bool,
    limit: u64,
    pieces: u32,
    gate: &G,
    steps: &mut Steps<L>,
) -> Result<Output, OutOfMemory>
    requires some { 1 ≤ number }
    requires most { number ≤ 20_000 }
    requires limit { limit ≤ step_limit }
    ensures made { IfOk result (IsMadeAnswer number text limit) }
    ensures steps { steps.old ≤ steps.new }
{
    let session = make(alloc, number)?;
    if text {
        return Ok(Output {
            status: ExitStatus::Done,
            text: session,
        });
    }
    match judge(alloc, session.as_bytes()) {
        Ok(judged) => {
            let blank = Blank::new(1);
            summarized::<R, G, L, Brand>(
                alloc, rt, number, limit, pieces, &judged, gate, steps, blank,
            )
        }
        // A generated session is good. No status tells that one is refused, so nothing would be written.
        Err(_) => Err(OutOfMemory),
    }
}

/// What reports tell besides.
fn report_form(invocation: &Invocation) -> ReportForm
    ensures { result ≡ report_form invocation.now }
{
    ReportForm {
        stats: invocation.stats,
        detail: invocation.detail,
    }
}

/// A good session is performed: its clients in turn where that is asked for, or else each on a thread of its own.
fn performed_good<R: Threads + Wait + Sync, G: Gate, L: Ledger, K: Ledger>(
    alloc: Global,
    rt: &R,
    invocation: &Invocation,
    judged: &JudgedSession,
    gate: &G,
    steps: &mut Steps<L>,
    blank: Blank,
) -> Result<Output, OutOfMemory>
    requires within { HasNumbersWithin invocation.now }
    requires session { CanBePerformed judged.now }
    requires name { blank.name ≡ K.name }
    requires parts { blank.parts ≡ K.parts }
    requires some { 0 < K.parts }
    ensures performed { IfOk result (HasRun invocation.now judged.now (counted_from steps.old steps.new)) }
    ensures steps { steps.old ≤ steps.new }
{
    let (limit, pieces, form) = (invocation.limit, invocation.pieces, report_form(invocation));
    if invocation.serial {
        let mut looks = Steps::<K>::open(blank);
        let text = perform_in_turn(
            alloc, rt, gate, judged, limit, pieces, form, steps, &mut looks,
        )?;
        return Ok(Output {
            status: ExitStatus::Done,
            text,
        });
    }
    let text = perform(alloc, rt, gate, judged, limit, pieces, form)?;
    Ok(Output {
        status: ExitStatus::Done,
        text,
    })
}

/// A session is judged, and performed where it is good.
pub fn performed<R: Threads + Wait + Sync, G: Gate, L: Ledger>(
    alloc: Global,
    rt: &R,
    invocation: &Invocation,
    input: &[u8],
    gate: &G,
    steps: &mut Steps<L>,
) -> Result<Output, OutOfMemory>
    requires within { HasNumbersWithin invocation.now }
    ensures performed { IfOk result (
        IsRunAnswer invocation.now input.now (judged_session input.now) (counted_from steps.old steps.new)) }
    ensures steps { steps.old ≤ steps.new }
{
    match judge(alloc, input) {
        Ok(judged) => {
            let blank = Blank::new(1);
            performed_good::<R, G, L, Brand>(alloc, rt, invocation, &judged, gate, steps, blank)
        }
        Err(JudgeError::Refused(refusal)) => {
            refused_session(alloc, invocation.explain, input, &refusal)
        }
        Err(JudgeError::OutOfMemory) => Err(OutOfMemory),
    }
}
