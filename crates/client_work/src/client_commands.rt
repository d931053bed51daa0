//! All commands of a client.

ghost use Rattle.std.specs.Prelude.{◌≡◌, ◌<◌, ◌^◌, IfOk, false, length};
ghost use Rattle.std.specs.String.{string_bytes};
ghost use Rattle.client_work.specs.Counts.{simulates};
ghost use Rattle.client_work.specs.Working.{AreBenchesAt, client_of, IsAssignedTo, IsAtWork, IsCommandDone, IsLater, IsWorkDone, work_state, told_command, work_of};

use crate::carrying_out::carry_out;
use crate::lines::told_line;
use crate::workplace::{Assignment, ClientCommand, NumberedClient, Worker, Workplace};
use aerie_base::{Name, OutOfMemory};
use aerie_edge::Gate;
use commands::Command;
use std::alloc::Global;
use std::sync::Wait;
use std::sync::ledger::Ledger;
use std::thread::Threads;

/// Carries out the command of a client with this name, and answers the line that is printed of it.
pub fn work_on<R: Threads + Wait + Sync, G: Gate, L: Ledger, K: Ledger>(
    alloc: Global,
    assignment: &Assignment<R, G>,
    name: &Name,
    command: &Command,
    worker: &mut Worker<L, K>,
) -> Result<String, OutOfMemory>
    requires workplace { IsAssignedTo assignment.now worker.old.pass.now }
    requires benches { AreBenchesAt assignment.now worker.old.benches.now }
    ensures done { IfOk result (λ line. IsCommandDone (told_command assignment.now name.now command.now)
        (work_state worker.old) (work_state worker.new) (string_bytes line)) }
    ensures still { simulates command.now ≡ false → worker.new.steps.now ≡ worker.old.steps.now }
    ensures later { IsLater worker.old worker.new }
{
    let mission = assignment.workplace.mission;
    let number = assignment.whose.command;
    let answer = carry_out(alloc, assignment, command, worker)?;
    let line = told_line(
        alloc,
        mission,
        name,
        number,
        command,
        &answer,
        worker.benches,
    )?;
    Ok(line)
}

/// Carries out all commands of a client, one after another, and answers the text of their lines.
pub fn work<R: Threads + Wait + Sync, G: Gate, L: Ledger, K: Ledger>(
    alloc: Global,
    workplace: &Workplace<R, G>,
    client: NumberedClient,
    commands: &[Command],
    worker: &mut Worker<L, K>,
) -> Result<String, OutOfMemory>
    requires workplace { IsAtWork workplace.now.mission.now workplace.now.lock.now worker.old.pass.now }
    requires benches { worker.old.benches.now ≡ workplace.now.mission.now.bound }
    requires few { length commands.now < 2 ^ 32 }
    ensures done { IfOk result (λ text. IsWorkDone
        (work_of workplace.now.mission.now (client_of client.entry) commands.now)
        worker.old.pass.now worker.new.pass.now (string_bytes text)) }
    ensures later { IsLater worker.old worker.new }
{
    let mut text = String::new(alloc);
    for number in 0..commands.len() {
        let whose = ClientCommand {
            client: client.number,
            command: number as u32,
        };
        let assignment = Assignment { workplace, whose };
        let command = &commands[number];
        let line = work_on(alloc, &assignment, client.name, command, worker)?;
        text.push_str(line.as_str())?;
    }
    Ok(text)
}
