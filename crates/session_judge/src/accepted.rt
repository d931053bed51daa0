//! The line of a session that is accepted.

ghost use Rattle.std.specs.Prelude.{◌≡◌, IfOk, string_bytes};
ghost use Rattle.json_line.specs.Json.{line_of as line_of_by};
ghost use Rattle.session_reader.specs.FewClients.{AreFewClients, HasFewClients};
ghost use Rattle.session_judge.specs.Accepted.{accepted_data, counts_data, command_count as command_count_by};

use aerie_base::OutOfMemory;
use json_line::{JsonData, JsonLine, line_of};
use session_reader::{Client, Session};
use std::alloc::Global;

/// How many commands all clients have.
fn command_count(clients: &[Client]) -> usize
    requires { AreFewClients clients.now }
    ensures { result ≡ command_count_by clients.now }
{
    let mut count = 0;
    for client in clients {
        count += client.commands.len();
    }
    count
}

/// So many clients and commands of a session that is accepted.
#[derive(Clone, Copy)]
struct Accepted {
    clients: usize,
    commands: usize,
}

impl JsonData for Accepted {
    ghost as_data = { λ accepted. counts_data accepted.clients accepted.commands };

    #[tactic(auto, using(json_line::proofs::Steps::part_by_part))]
    fn write(&self, line: &mut JsonLine) -> Result<(), OutOfMemory> {
        line.begin_object()?;
        line.member("clients", &self.clients)?;
        line.member("commands", &self.commands)?;
        line.text_member("session", "ok")?;
        line.end_object()
    }
}

/// The line of a session that is accepted: how many clients it has, and how many commands all of them have.
pub fn accepted_line(alloc: Global, session: &Session) -> Result<String, OutOfMemory>
    requires few { HasFewClients session.now }
    ensures { IfOk result (λ line. string_bytes line ≡ line_of_by (accepted_data session.now)) }
{
    let clients = session.clients.as_slice();
    let accepted = Accepted {
        clients: clients.len(),
        commands: command_count(clients),
    };
    line_of(alloc, &accepted)
}
