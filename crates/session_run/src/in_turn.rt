//! The clients' commands in turn: the first of each client, then the second of each, and so on, each whole.

ghost use Rattle.std.specs.Prelude.{◌≡◌, ◌≤◌, IfOk, OnOk, length, map};
ghost use Rattle.std.specs.String.{string_bytes};
ghost use Rattle.hangar_core.specs.Serial.{longest};
ghost use Rattle.session_reader.specs.FewClients.{AreFewClients};
ghost use Rattle.client_work.specs.Working.{IsAtWork};
ghost use Rattle.session_run.specs.Missions.{AreBenchesOf, all_commands};
ghost use Rattle.session_run.specs.Rounds.{HasDoneRounds, TakesRound, TakesCommand, stand_at, texts_without};

use crate::client_benches::client_benches;
use aerie_base::{OutOfMemory, Steps};
use aerie_edge::Gate;
use client_work::{Assignment, Benches, ClientCommand, Worker, Workplace, work_on};
use commands::Command;
use hangar_lock::Pass;
use session_reader::Client as SessionClient;
use std::alloc::Global;
use std::mem;
use std::sync::Wait;
use std::sync::ledger::Ledger;
use std::thread::Threads;

/// The most commands of a client.
pub(crate) fn longest_of(clients: &[SessionClient]) -> usize
    ensures { result ≡ longest (all_commands clients.now) }
{
    let mut most = 0;
    for client in clients {
        most = most.max(client.commands.len());
    }
    most
}

/// So many empty texts.
#[tactic(auto, using(crate::proofs::Rounds::pushed_text))]
fn empty_texts(alloc: Global, count: usize) -> Result<Vec<String>, OutOfMemory>
    ensures { IfOk result (λ texts. map string_bytes texts.items ≡ texts_without count) }
{
    let mut texts = Vec::with_capacity(alloc, count)?;
    for number in 0..count {
        texts.push(String::new(alloc))?;
    }
    Ok(texts)
}

/// A client's command with a number is carried out, and the line that is told of it goes to the end of its text.
fn take_command<R: Threads + Wait + Sync, G: Gate, L: Ledger, K: Ledger>(
    alloc: Global,
    workplace: &Workplace<R, G>,
    client: &SessionClient,
    which: u32,
    number: u32,
    command: &Command,
    pass: &mut Pass,
    text: &mut String,
    benches: &mut Benches,
    steps: &mut Steps<L>,
    looks: &mut Steps<K>,
) -> Result<(), OutOfMemory>
    requires workplace { IsAtWork workplace.now.mission.now workplace.now.lock.now pass.old }
    requires benches { benches.old ≡ workplace.now.mission.now.bound }
    ensures taken { IfOk result (λ _.
        TakesCommand workplace.now.mission.now which client.now number command.now
        (stand_at pass.old steps.old) (stand_at pass.new steps.new) (string_bytes text.old) (string_bytes text.new)) }
    ensures benches { benches.new ≡ benches.old }
    ensures steps { steps.old ≤ steps.new }
{
    let whose = ClientCommand {
        client: which,
        command: number,
    };
    let assignment = Assignment { workplace, whose };
    let mut worker = Worker {
        pass,
        benches,
        steps,
        looks,
    };
    let line = work_on(alloc, &assignment, &client.name, command, &mut worker)?;
    text.push_str(line.as_str())?;
    Ok(())
}

/// A round: the command with a number of each client that has one.
fn take_round<R: Threads + Wait + Sync, G: Gate, L: Ledger, K: Ledger>(
    alloc: Global,
    workplace: &Workplace<R, G>,
    clients: &[SessionClient],
    number: usize,
    pass: &mut Pass,
    texts: &mut Vec<String>,
    benches: &mut Vec<Benches>,
    steps: &mut Steps<L>,
    looks: &mut Steps<K>,
) -> Result<(), OutOfMemory>
    requires workplace { IsAtWork workplace.now.mission.now workplace.now.lock.now pass.old }
    requires benches { AreBenchesOf workplace.now.mission.now clients.now benches.old.items }
    requires few { AreFewClients clients.now }
    requires texts { length texts.old.items ≡ length clients.now }
    ensures taken { IfOk result (λ _.
        TakesRound workplace.now.mission.now clients.now number
        (stand_at pass.old steps.old) (stand_at pass.new steps.new)
        (map string_bytes texts.old.items) (map string_bytes texts.new.items)) }
    ensures benches { OnOk result (AreBenchesOf workplace.now.mission.now clients.now benches.new.items) }
    ensures steps { steps.old ≤ steps.new }
{
    for which in 0..clients.len() {
        if number < clients[which].commands.len() {
            let client = &clients[which];
            let command = &client.commands.as_slice()[number];
            let text = &mut texts[which];
            let benches = &mut benches[which];
            take_command(
                alloc,
                workplace,
                client,
                which as u32,
                number as u32,
                command,
                pass,
                text,
                benches,
                steps,
                looks,
            )?;
        }
    }
    Ok(())
}

/// All rounds, with a pass that has done nothing; the texts are those of the clients.
pub(crate) fn take_rounds<R: Threads + Wait + Sync, G: Gate, L: Ledger, K: Ledger>(
    alloc: Global,
    workplace: &Workplace<R, G>,
    clients: &[SessionClient],
    pass: &mut Pass,
    steps: &mut Steps<L>,
    looks: &mut Steps<K>,
) -> Result<Vec<String>, OutOfMemory>
    requires workplace { IsAtWork workplace.now.mission.now workplace.now.lock.now pass.old }
    requires few { AreFewClients clients.now }
    ensures taken { IfOk result (λ texts.
        HasDoneRounds workplace.now.mission.now clients.now
        (stand_at pass.old steps.old) (stand_at pass.new steps.new) (map string_bytes texts.items)) }
    ensures steps { steps.old ≤ steps.new }
{
    let mut texts = empty_texts(alloc, clients.len())?;
    let bound = workplace.mission.bound;
    let mut benches = client_benches(alloc, clients.len(), bound, workplace.pieces)?;
    for number in 0..longest_of(clients) {
        take_round(
            alloc,
            workplace,
            clients,
            number,
            pass,
            &mut texts,
            &mut benches,
            steps,
            looks,
        )?;
    }
    // As with what `last_text` leaves: the process ends next.
    mem::forget(benches);
    Ok(texts)
}
