//! A session is performed and summarized.

ghost use Rattle.std.specs.Prelude.{◌≡◌, ◌≤◌, IfOk};
ghost use Rattle.aerie_base.specs.Ranges.{step_limit};
ghost use Rattle.session_run.specs.Answers.{serial_answers};
ghost use Rattle.session_run.specs.Ruled.{CanBePerformed};
ghost use Rattle.session_run.specs.summary.Summaries.{summary_of};

use crate::counting::count_rounds;
use crate::missions::{hangar, mission};
use crate::summary::Summary;
use aerie_base::{OutOfMemory, Steps};
use aerie_edge::Gate;
use client_work::{ReportForm, Workplace};
use hangar_lock::HangarLock;
use hangar_lock::laws::commands_are_done;
use history_store::Store;
use session_judge::JudgedSession;
use std::alloc::Global;
use std::sync::Wait;
use std::sync::ledger::Ledger;
use std::thread::Threads;

/// Performs a session as `perform_in_turn` does, and answers what is counted of the answers to all commands in place of their
/// text.
pub fn summarize_in_turn<R: Threads + Wait + Sync, G: Gate, L: Ledger, K: Ledger>(
    alloc: Global,
    rt: &R,
    gate: &G,
    judged: &JudgedSession,
    bound: u64,
    pieces: u32,
    steps: &mut Steps<L>,
    looks: &mut Steps<K>,
) -> Result<Summary, OutOfMemory>
    requires session { CanBePerformed judged.now }
    requires bound { bound ≤ step_limit }
    ensures summarized { IfOk result (λ summary. summary ≡ summary_of (serial_answers judged.now bound)) }
    ensures steps { steps.old ≤ steps.new }
{
    commands_are_done();
    let form = ReportForm {
        stats: false,
        detail: false,
    };
    let mission = mission(alloc, judged, bound, form)?;
    let store = Store::new(alloc)?;
    let (lock, mut pass) = HangarLock::open(alloc, hangar(alloc, &judged.session)?)?;
    let workplace = Workplace {
        rt,
        mission: &mission,
        lock: &lock,
        gate,
        store: &store,
        pieces,
    };
    let clients = judged.session.clients.as_slice();
    let summary = count_rounds(alloc, &workplace, clients, &mut pass, steps, looks)?;
    let (_, _journal) = lock.close(pass);
    Ok(summary)
}
