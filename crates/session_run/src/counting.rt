//! The clients' commands in turn, and what is told of them counted.

ghost use Rattle.std.specs.Prelude.{◌≡◌, ◌≤◌, IfOk, OnOk, false};
ghost use Rattle.session_reader.specs.FewClients.{AreFewClients};
ghost use Rattle.client_work.specs.Working.{IsAtWork};
ghost use Rattle.session_run.specs.Missions.{AreBenchesOf};
ghost use Rattle.session_run.specs.Answers.{CountsRound, CountsCommand, HasCounted};

use crate::client_benches::client_benches;
use crate::in_turn::longest_of;
use crate::summary::Summary;
use aerie_base::{OutOfMemory, Steps};
use aerie_edge::Gate;
use client_work::{Assignment, Benches, ClientCommand, Worker, Workplace, carry_out};
use commands::Command;
use hangar_lock::Pass;
use session_reader::Client as SessionClient;
use std::alloc::Global;
use std::sync::Wait;
use std::sync::ledger::Ledger;
use std::thread::Threads;

/// A client's command is carried out, and what is told of it is counted.
fn count_command<R: Threads + Wait + Sync, G: Gate, L: Ledger, K: Ledger>(
    alloc: Global,
    workplace: &Workplace<R, G>,
    whose: ClientCommand,
    command: &Command,
    pass: &mut Pass,
    summary: &mut Summary,
    benches: &mut Benches,
    steps: &mut Steps<L>,
    looks: &mut Steps<K>,
) -> Result<(), OutOfMemory>
    requires workplace { IsAtWork workplace.now.mission.now workplace.now.lock.now pass.old }
    requires benches { benches.old ≡ workplace.now.mission.now.bound }
    requires uncounted { workplace.now.mission.now.form.stats ≡ false }
    ensures counted { IfOk result (λ _.
        CountsCommand workplace.now.mission.now whose command.now pass.old pass.new summary.old summary.new) }
    ensures benches { benches.new ≡ benches.old }
    ensures steps { steps.old ≤ steps.new }
{
    let assignment = Assignment { workplace, whose };
    let mut worker = Worker {
        pass,
        benches,
        steps,
        looks,
    };
    let answer = carry_out(alloc, &assignment, command, &mut worker)?;
    summary.note(alloc, &answer)
}

/// A round: the command with a number of each client that has one.
fn count_round<R: Threads + Wait + Sync, G: Gate, L: Ledger, K: Ledger>(
    alloc: Global,
    workplace: &Workplace<R, G>,
    clients: &[SessionClient],
    number: usize,
    pass: &mut Pass,
    summary: &mut Summary,
    benches: &mut Vec<Benches>,
    steps: &mut Steps<L>,
    looks: &mut Steps<K>,
) -> Result<(), OutOfMemory>
    requires workplace { IsAtWork workplace.now.mission.now workplace.now.lock.now pass.old }
    requires benches { AreBenchesOf workplace.now.mission.now clients.now benches.old.items }
    requires uncounted { workplace.now.mission.now.form.stats ≡ false }
    requires few { AreFewClients clients.now }
    ensures counted { IfOk result (λ _.
        CountsRound workplace.now.mission.now clients.now number pass.old pass.new summary.old summary.new) }
    ensures benches { OnOk result (AreBenchesOf workplace.now.mission.now clients.now benches.new.items) }
    ensures steps { steps.old ≤ steps.new }
{
    for which in 0..clients.len() {
        if number < clients[which].commands.len() {
            let client = &clients[which];
            let command = &client.commands.as_slice()[number];
            let whose = ClientCommand {
                client: which as u32,
                command: number as u32,
            };
            let benches = &mut benches[which];
            count_command(
                alloc, workplace, whose, command, pass, summary, benches, steps, looks,
            )?;
        }
    }
    Ok(())
}

/// All rounds, with a pass that has done nothing: what is counted of all commands.
pub(crate) fn count_rounds<R: Threads + Wait + Sync, G: Gate, L: Ledger, K: Ledger>(
    alloc: Global,
    workplace: &Workplace<R, G>,
    clients: &[SessionClient],
    pass: &mut Pass,
    steps: &mut Steps<L>,
    looks: &mut Steps<K>,
) -> Result<Summary, OutOfMemory>
    requires workplace { IsAtWork workplace.now.mission.now workplace.now.lock.now pass.old }
    requires uncounted { workplace.now.mission.now.form.stats ≡ false }
    requires few { AreFewClients clients.now }
    ensures counted { IfOk result (HasCounted workplace.now.mission.now clients.now pass.old pass.new) }
    ensures steps { steps.old ≤ steps.new }
{
    let mut summary = Summary::new();
    let bound = workplace.mission.bound;
    let mut benches = client_benches(alloc, clients.len(), bound, workplace.pieces)?;
    for number in 0..longest_of(clients) {
        count_round(
            alloc,
            workplace,
            clients,
            number,
            pass,
            &mut summary,
            &mut benches,
            steps,
            looks,
        )?;
    }
    Ok(summary)
}
