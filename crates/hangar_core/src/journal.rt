//! The journal.

ghost use Rattle.std.specs.Prelude.{◌≡◌, ◌≤◌, ◌<◌, ◌^◌, [], ◌∷◌, ◌++◌, IfOk, OnErr, OnOk, vec_len, vec_capacity};
ghost use Rattle.hangar_core.specs.Journals.{accepted_in};
ghost use Rattle.hangar_core.specs.ValidWorkspaces.{IsActionOn, IsStepped};

use crate::entries::Entry;
use crate::hangar::Hangar;
use crate::replies::Reply;
use crate::triples::Triple;
use aerie_base::{List, OutOfMemory};
use std::alloc::Global;
use std::snapshot::Snapshot;

/// What was done to a workspace, and what each action answered, refusals as well. Contracts see the entries with their
/// replies, first to last; when the program runs, only their triples are there.
#[derive(Drop)]
pub struct Journal {
    triples: Option<List<Triple>>,
}

impl std::marker::Model for Journal {
    ghost use Rattle.std.specs.Coded.{codes};
    ghost use Rattle.aerie_base.specs.contracts.expressions.Expr as expr;
    ghost use Rattle.aerie_base.specs.contracts.conditions.Cond as cond;
    ghost use Rattle.aerie_base.specs.contracts.statements.Stmt as stmt;
    ghost use Rattle.hangar_core.specs.Journals.{Entries, listed};

    ghost Value = { Entries };

    ghost coded = { Prim.hlevel (codes, expr.the_row.coded, cond.the_row.coded, stmt.the_row.coded) };

    ghost view = { λ journal. listed journal.triples };
}

impl Journal {
    /// The empty journal. It takes no memory.
    pub fn new() -> Journal
        ensures { result ≡ [] }
    {
        Journal { triples: None }
    }

    /// The triples of the entries, first to last: contracts see them as the entries with their replies. It takes no memory.
    pub fn triples(&self) -> &[Triple]
        ensures { result.now ≡ self.now }
    {
        match &self.triples {
            Some(triples) => triples.as_slice(),
            None => &[],
        }
    }

    /// Steps the workspace, and adds the entry with its reply, a refusal as well. It makes room first, so that after want of
    /// memory neither has changed. Each action that the workspace accepted, but a Fetch, has to have its entry here. Neither the
    /// action nor the reply is copied or kept.
    pub fn act(
        &mut self,
        alloc: Global,
        hangar: &mut Hangar,
        entry: Entry,
    ) -> Result<Reply, OutOfMemory>
        requires kept { hangar.old.accepted ≤ accepted_in self.old }
        requires action { IsActionOn hangar.old.workspace entry.action }
        ensures stepped { IfOk result (λ reply. IsStepped hangar.old hangar.new entry.action reply) }
        ensures noted { IfOk result (λ reply. self.new ≡ self.old ++ (entry, reply) ∷ []) }
        ensures kept { hangar.new.accepted ≤ accepted_in self.new }
        ensures unmoved { OnErr result (hangar.new ≡ hangar.old) }
        ensures unchanged { OnErr result (self.new ≡ self.old) }
    {
        if self.triples.is_none() {
            self.triples = Some(List::new(alloc));
        }
        match &mut self.triples {
            Some(triples) => note(&mut triples.items, alloc, hangar, entry),
            None => Err(OutOfMemory),
        }
    }
}

/// Makes room first, then steps the workspace and adds the entry with its reply.
#[tactic(auto, using(crate::proofs::Noting::kept_after))]
fn note(
    triples: &mut Vec<Triple>,
    alloc: Global,
    hangar: &mut Hangar,
    entry: Entry,
) -> Result<Reply, OutOfMemory>
    requires kept { hangar.old.accepted ≤ accepted_in triples.old.items }
    requires action { IsActionOn hangar.old.workspace entry.action }
    ensures stepped { IfOk result (λ reply. IsStepped hangar.old hangar.new entry.action reply) }
    ensures noted { IfOk result (λ reply. triples.new.items ≡ triples.old.items ++ (entry, reply) ∷ []) }
    ensures kept { hangar.new.accepted ≤ accepted_in triples.new.items }
    ensures unmoved { OnErr result (hangar.new ≡ hangar.old) }
    ensures unchanged { OnErr result (triples.new.items ≡ triples.old.items) }
{
    make_room(triples)?;
    let (reply, triple) = told_with_triple(alloc, hangar, entry)?;
    add(triples, triple);
    Ok(reply)
}

/// The most entries of a journal; no memory holds more.
const MOST_ENTRIES: usize = 9_223_372_036_854_775_807;

/// Makes room for one entry more.
#[tactic(auto, using(crate::proofs::Noting::few_accepted))]
fn make_room(triples: &mut Vec<Triple>) -> Result<(), OutOfMemory>
    ensures room { OnOk result (vec_len triples.new < vec_capacity triples.new) }
    ensures few { OnOk result (accepted_in triples.new.items < 2 ^ 63) }
    ensures same { triples.new.items ≡ triples.old.items }
{
    if triples.len() >= MOST_ENTRIES {
        return Err(OutOfMemory);
    }
    triples.reserve(1)?;
    Ok(())
}

/// Steps the workspace, and gives the reply beside the triple of the entry.
fn told_with_triple(
    alloc: Global,
    hangar: &mut Hangar,
    entry: Entry,
) -> Result<(Reply, Triple), OutOfMemory>
    requires few { hangar.old.accepted < 2 ^ 63 }
    requires action { IsActionOn hangar.old.workspace entry.action }
    ensures stepped { IfOk result (λ told. IsStepped hangar.old hangar.new entry.action told.0) }
    ensures triple { IfOk result (λ told. told.1 ≡ (entry, told.0)) }
    ensures unmoved { OnErr result (hangar.new ≡ hangar.old) }
{
    let (client, command, part) = (entry.client, entry.command, entry.part);
    let action = Snapshot::of(&entry.action);
    let reply = hangar.step(alloc, entry)?;
    let triple = Triple {
        client,
        command,
        part,
        action,
        reply: Snapshot::of(&reply),
    };
    Ok((reply, triple))
}

/// Adds an entry where there is room.
fn add(triples: &mut Vec<Triple>, triple: Triple)
    requires { vec_len triples.old < vec_capacity triples.old }
    ensures { triples.new.items ≡ triples.old.items ++ triple ∷ [] }
{
    let _added = triples.push(triple);
}
