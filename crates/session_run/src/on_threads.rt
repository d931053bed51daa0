//! Each client's commands on a thread of its own, with a pass of its own.

ghost use Rattle.std.specs.Prelude.{◌≡◌, ◌<◌, ◌^◌, IfOk, length, map, Some};
ghost use Rattle.std.specs.List.{AllByRecursion};
ghost use Rattle.std.specs.String.{string_bytes};
ghost use Rattle.hangar_lock.specs.laws.JoinedPasses.{joined_with_all};
ghost use Rattle.hangar_lock.specs.Passes.{first_pass};
ghost use Rattle.client_work.specs.Working.{IsAtWork, IsWorkDone, work_of};
ghost use Rattle.session_run.specs.Texts.{client_numbered};
ghost use Rattle.session_run.specs.Works.{AreDone, AreOf, AreWorksOf, CanWork, HasDoneWork, passes_of, split_often, works_texts};

use aerie_base::{OutOfMemory, Steps};
use aerie_edge::Gate;
use client_work::{Benches, NumberedClient, Worker, Workplace, work};
use hangar_lock::{HangarLock, Pass};
use session_reader::Client as SessionClient;
use std::alloc::Global;
use std::marker::Brand;
use std::sync::Wait;
use std::sync::ledger::{Blank, Ledger};
use std::thread;
use std::thread::Threads;

/// The work of a client that is to be done, with the pass that was split for it.
#[derive(Drop)]
pub struct Work {
    /// The number of the client.
    pub which: usize,
    /// Its pass.
    pub pass: Pass,
}

/// The work of a client that was done.
#[derive(Drop)]
pub struct Done {
    /// Its pass.
    pub pass: Pass,
    /// What is told of its commands; nothing where memory was wanting.
    pub text: Option<String>,
}

/// The works of all clients, each with a pass that is split from the first one.
pub fn split_works(
    alloc: Global,
    lock: &HangarLock,
    pass: &mut Pass,
    count: usize,
) -> Result<Vec<Work>, OutOfMemory>
    requires first { pass.old ≡ first_pass lock.now }
    requires few { count < 4_294_967_295 }
    ensures left { IfOk result (λ _. pass.new ≡ split_often count (first_pass lock.now)) }
    ensures works { IfOk result (λ works. AreWorksOf lock.now count works.items) }
{
    let mut works = Vec::with_capacity(alloc, count)?;
    for which in 0..count {
        let pass = lock.split(pass)?;
        works.push(Work { which, pass })?;
    }
    Ok(works)
}

/// A client's work, with benches of its own and counters that nobody else reads.
fn counted<R: Threads + Wait + Sync, G: Gate, L: Ledger, K: Ledger>(
    alloc: Global,
    workplace: &Workplace<R, G>,
    client: &SessionClient,
    which: u32,
    pass: &mut Pass,
    steps: Blank,
    looks: Blank,
) -> Result<String, OutOfMemory>
    requires steps_name { steps.name ≡ L.name }
    requires steps_parts { steps.parts ≡ L.parts }
    requires some_steps { 0 < L.parts }
    requires looks_name { looks.name ≡ K.name }
    requires looks_parts { looks.parts ≡ K.parts }
    requires some_looks { 0 < K.parts }
    requires workplace { IsAtWork workplace.now.mission.now workplace.now.lock.now pass.old }
    requires few { length client.now.commands < 2 ^ 32 }
    ensures { IfOk result (λ text. IsWorkDone
        (work_of workplace.now.mission.now (client_numbered which client.now) client.now.commands)
        pass.old pass.new (string_bytes text)) }
{
    let mut steps = Steps::<L>::open(steps);
    let mut looks = Steps::<K>::open(looks);
    let told = NumberedClient {
        name: &client.name,
        number: which,
    };
    let mut benches = Benches::new(alloc, workplace.mission.bound, workplace.pieces);
    let mut worker = Worker {
        pass,
        benches: &mut benches,
        steps: &mut steps,
        looks: &mut looks,
    };
    let text = work(
        alloc,
        workplace,
        told,
        client.commands.as_slice(),
        &mut worker,
    )?;
    Ok(text)
}

/// The work of a client is done.
fn do_work<R: Threads + Wait + Sync, G: Gate>(
    alloc: Global,
    workplace: &Workplace<R, G>,
    clients: &[SessionClient],
    work: Work,
) -> Done
    requires work { CanWork workplace.now.mission.now workplace.now.lock.now clients.now work }
    ensures { HasDoneWork workplace.now.mission.now clients.now work result }
{
    let Work { which, mut pass } = work;
    let client = &clients[which];
    let told = counted::<R, G, Brand, Brand>(
        alloc,
        workplace,
        client,
        which as u32,
        &mut pass,
        Blank::new(1),
        Blank::new(1),
    );
    let text = match told {
        Ok(text) => Some(text),
        Err(OutOfMemory) => None,
    };
    Done { pass, text }
}

/// Takes the passes of all works back, in order, and gives what is told of them, where memory did not end in any.
pub fn gather(
    alloc: Global,
    lock: &HangarLock,
    pass: &mut Pass,
    dones: Vec<Done>,
) -> Result<Vec<String>, OutOfMemory>
    requires own { pass.old.lock ≡ lock.now }
    requires others { AreOf lock.now dones.items }
    ensures joined { IfOk result (λ _. pass.new ≡ joined_with_all pass.old (passes_of dones.items)) }
    ensures told { IfOk result (λ texts. works_texts dones.items ≡ map Some texts.items) }
{
    let mut texts = Vec::with_capacity(alloc, dones.len())?;
    for done in dones {
        let Done { pass: other, text } = done;
        let Some(text) = text else {
            return Err(OutOfMemory);
        };
        lock.join(pass, other);
        texts.push(text)?;
    }
    Ok(texts)
}

/// All works, each on a thread of its own where one can be made.
pub fn do_works<R: Threads + Wait + Sync, G: Gate>(
    alloc: Global,
    workplace: &Workplace<R, G>,
    clients: &[SessionClient],
    works: Vec<Work>,
) -> Result<Vec<Done>, OutOfMemory>
    requires works { AllByRecursion (CanWork workplace.now.mission.now workplace.now.lock.now clients.now) works.items }
    ensures { IfOk result (λ dones. AreDone workplace.now.mission.now clients.now works.items dones.items) }
{
    let dones = thread::map_vec(
        workplace.rt,
        works,
        &|work: Work| -> Done
            requires { CanWork workplace.now.mission.now workplace.now.lock.now clients.now work }
            ensures { HasDoneWork workplace.entry.now.mission.now clients.entry.now work result }
        { do_work(alloc, workplace, clients, work) },
    )?;
    Ok(dones)
}
