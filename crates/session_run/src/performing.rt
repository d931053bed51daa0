//! A session is performed.

ghost use Rattle.std.specs.Prelude.{◌≤◌, IfOk};
ghost use Rattle.std.specs.String.{string_bytes};
ghost use Rattle.aerie_base.specs.Ranges.{step_limit};
ghost use Rattle.session_run.specs.Performed.{IsPerformed, IsPerformedInTurn};
ghost use Rattle.session_run.specs.Ruled.{CanBePerformed};

use crate::in_turn::take_rounds;
use crate::missions::{hangar, mission};
use crate::on_threads::{do_works, gather, split_works};
use crate::texts::last_text;
use aerie_base::{OutOfMemory, Steps};
use aerie_edge::Gate;
use client_work::laws::told_works_are_done;
use client_work::{ReportForm, Workplace};
use hangar_lock::HangarLock;
use hangar_lock::laws::{
    commands_are_done, joined_passes_are_whole, joined_passes_fit, passes_have_their_entries,
};
use history_store::Store;
use session_judge::JudgedSession;
use std::alloc::Global;
use std::sync::Wait;
use std::sync::ledger::Ledger;
use std::thread::Threads;

/// Performs a session, its clients in turn: the first command of each, then the second of each, and so on, each whole. Answers
/// the text that is printed: the line of the journal, and what is told of each client's commands, client by client. A
/// simulation ends where its cost would pass the bound, at most 100,000,000; `form` says what reports tell
/// besides. A wave of a simulation is cut into 1 to 64 pieces, and into no more than are said. The gate is told when each command's simulation starts and ends; statements and looks are counted.
pub fn perform_in_turn<R: Threads + Wait + Sync, G: Gate, L: Ledger, K: Ledger>(
    alloc: Global,
    rt: &R,
    gate: &G,
    judged: &JudgedSession,
    bound: u64,
    pieces: u32,
    form: ReportForm,
    steps: &mut Steps<L>,
    looks: &mut Steps<K>,
) -> Result<String, OutOfMemory>
    requires session { CanBePerformed judged.now }
    requires bound { bound ≤ step_limit }
    ensures performed { IfOk result (λ text.
        IsPerformedInTurn judged.now bound form (string_bytes text) steps.old steps.new) }
    ensures steps { steps.old ≤ steps.new }
{
    commands_are_done();
    let mission = mission(alloc, judged, bound, form)?;
    let store = Store::new(alloc)?;
    let (lock, mut pass) = HangarLock::open(alloc, hangar(alloc, &judged.session)?)?;
    let workplace = Workplace {
        rt,
        mission: &mission,
        lock: &lock,
        gate,
        store: &store,
        pieces,
    };
    let clients = judged.session.clients.as_slice();
    let texts = take_rounds(alloc, &workplace, clients, &mut pass, steps, looks)?;
    let (hangar, journal) = lock.close(pass);
    last_text(alloc, hangar, store, journal, texts)
}

/// Performs a session, each client's commands on a thread of its own, where one can be made. Answers the text that is printed,
/// as `perform_in_turn` does: whatever the order in which the threads took turns, it is the session's along a journal that
/// fits, in which each client's actions stand once and in order. Statements and looks are counted by nobody else.
pub fn perform<R: Threads + Wait + Sync, G: Gate>(
    alloc: Global,
    rt: &R,
    gate: &G,
    judged: &JudgedSession,
    bound: u64,
    pieces: u32,
    form: ReportForm,
) -> Result<String, OutOfMemory>
    requires session { CanBePerformed judged.now }
    requires bound { bound ≤ step_limit }
    ensures { IfOk result (λ text. IsPerformed judged.now bound form (string_bytes text)) }
{
    told_works_are_done();
    passes_have_their_entries();
    joined_passes_fit();
    joined_passes_are_whole();
    let mission = mission(alloc, judged, bound, form)?;
    let store = Store::new(alloc)?;
    let (lock, mut pass) = HangarLock::open(alloc, hangar(alloc, &judged.session)?)?;
    let workplace = Workplace {
        rt,
        mission: &mission,
        lock: &lock,
        gate,
        store: &store,
        pieces,
    };
    let clients = judged.session.clients.as_slice();
    let works = split_works(alloc, &lock, &mut pass, clients.len())?;
    let dones = do_works(alloc, &workplace, clients, works)?;
    let texts = gather(alloc, &lock, &mut pass, dones)?;
    let (hangar, journal) = lock.close(pass);
    last_text(alloc, hangar, store, journal, texts)
}
