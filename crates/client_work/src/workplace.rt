//! Which command is carried out, and what clients work with.

use crate::benches::Benches;
use crate::missions::Mission;
use aerie_base::{Name, Steps};
use aerie_edge::Gate;
use hangar_lock::{HangarLock, Pass};
use history_store::Store;
use std::sync::Wait;
use std::sync::ledger::Ledger;

/// Which command of which client is carried out, both counted from 0.
#[derive(Clone, Copy, Debug, Drop)]
pub struct ClientCommand {
    /// The client.
    pub client: u32,
    /// Its command.
    pub command: u32,
}

/// A client of a session.
#[derive(Clone, Copy, Drop)]
pub struct NumberedClient<'a> {
    /// Its name.
    pub name: &'a Name,
    /// Its number, counted from 0 in the order of the text.
    pub number: u32,
}

/// What all clients work with.
#[derive(Drop)]
pub struct Workplace<'a, R: Wait, G: Gate> {
    /// What waits for turns of the lock.
    pub rt: &'a R,
    /// The models and their rules.
    pub mission: &'a Mission,
    /// The workspace and the journal.
    pub lock: &'a HangarLock,
    /// Who is told when simulations start and end.
    pub gate: &'a G,
    /// The stored steps that all clients share.
    pub store: &'a Store,
    /// Into how many pieces a wave is cut at most: 1 to 64.
    pub pieces: u32,
}

/// A client's command that is carried out at a workplace.
#[derive(Drop)]
pub struct Assignment<'w, 'a, R: Wait, G: Gate> {
    /// The workplace.
    pub workplace: &'w Workplace<'a, R, G>,
    /// Which command of which client it is.
    pub whose: ClientCommand,
}

/// Who carries commands out: its pass of the lock, its benches, and what is counted of its simulations.
#[derive(Drop)]
pub struct Worker<'p, 'b, 's, 'l, L: Ledger, K: Ledger> {
    /// The pass.
    pub pass: &'p mut Pass,
    /// Where it simulates.
    pub benches: &'b mut Benches,
    /// How many statements were simulated.
    pub steps: &'s mut Steps<L>,
    /// How many stored steps were looked up.
    pub looks: &'l mut Steps<K>,
}
