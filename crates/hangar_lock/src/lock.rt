//! The lock and its passes.

ghost use Rattle.std.specs.Prelude.{◌≡◌, ◌<◌, IfOk, IsOk, OnErr};
ghost use Rattle.hangar_core.specs.Journals.{after_entries};
ghost use Rattle.hangar_core.specs.ValidWorkspaces.{IsActionOn};
ghost use Rattle.hangar_lock.specs.Passes.{after_split, first_pass, HasActed, HasSeenMore, IsWhole, joined_with, split_from};
ghost use Rattle.hangar_lock.specs.Pasts.{IsPast, IsReplyIn};
ghost use Rattle.hangar_lock.specs.Places.{HasPassNumber, HaveAllOf, StandIn, StartsWith};

use crate::desk::Desk;
use crate::one_journal::{JoinSeats, PassSeat, SplitSeat, TurnTable};
use crate::receipts::Receipt;
use crate::turnstile::Turnstile;
use aerie_base::OutOfMemory;
use hangar_core::{Entry, Hangar, Journal};
use std::alloc::Global;
use std::snapshot::Snapshot;
use std::sync::Wait;

/// A workspace and its journal, which threads share. Each call of `act` takes its turn, in the order of tickets. Contracts see
/// which lock it is, and the workspace with which it was opened.
#[derive(Drop)]
pub struct HangarLock {
    turns: Turnstile,
}

impl std::marker::Model for HangarLock {
    ghost use Rattle.std.specs.Coded.{codes};
    ghost use Rattle.aerie_base.specs.contracts.expressions.Expr as expr;
    ghost use Rattle.aerie_base.specs.contracts.conditions.Cond as cond;
    ghost use Rattle.aerie_base.specs.contracts.statements.Stmt as stmt;
    ghost use Rattle.hangar_lock.specs.Passes.{lock_view, LockView};

    ghost Value = { LockView };

    ghost coded = { Prim.hlevel (codes, expr.the_row.coded, cond.the_row.coded, stmt.the_row.coded) };

    ghost view = { λ lock. lock_view lock.turns.table.shared.table_id lock.turns.table.shared.key.value };
}

/// What a caller knows of a lock: the first entries of its journal, and which of them are its own. It has no bytes.
#[derive(Drop)]
pub struct Pass {
    seat: PassSeat,
}

impl std::marker::Model for Pass {
    ghost use Rattle.std.specs.Coded.{codes};
    ghost use Rattle.aerie_base.specs.contracts.expressions.Expr as expr;
    ghost use Rattle.aerie_base.specs.contracts.conditions.Cond as cond;
    ghost use Rattle.aerie_base.specs.contracts.statements.Stmt as stmt;
    ghost use Rattle.hangar_lock.specs.Passes.{PassView};
    ghost use Rattle.hangar_lock.specs.Resting.{pass_view, IsResting};

    ghost Value = { PassView };

    ghost coded = { Prim.hlevel (codes, expr.the_row.coded, cond.the_row.coded, stmt.the_row.coded) };

    ghost view = { λ pass. pass_view pass.seat.table_id pass.seat.me.0 };

    ghost invariant = { λ pass. IsResting pass.seat.me };
}

impl HangarLock {
    /// A lock round a workspace of which no action but a Fetch was accepted, with an empty journal, and its first pass.
    pub fn open(alloc: Global, hangar: Hangar) -> Result<(HangarLock, Pass), OutOfMemory>
        requires fresh { hangar.accepted ≡ 0 }
        ensures opened { IfOk result (λ made. made.0.opened ≡ hangar) }
        ensures first { IfOk result (λ made. made.1 ≡ first_pass made.0) }
    {
        let opened = Snapshot::of(&hangar);
        let mut slots = Vec::new(alloc);
        slots.push(Some(Desk {
            hangar,
            journal: Journal::new(),
        }))?;
        match TurnTable::new(alloc, &[0, 0], slots, &opened) {
            Ok((table, seat)) => Ok((
                HangarLock {
                    turns: Turnstile { table },
                },
                Pass { seat },
            )),
            Err(_refused) => Err(OutOfMemory),
        }
    }

    /// Waits for its turn, steps the workspace and adds the entry with its reply to the journal, a refusal as well. After want
    /// of memory neither has changed, and others go on.
    pub fn act<R: Wait>(
        &self,
        alloc: Global,
        rt: &R,
        pass: &mut Pass,
        entry: Entry,
    ) -> Result<Receipt, OutOfMemory>
        requires own { pass.old.lock ≡ self.now }
        requires action { IsActionOn self.now.opened.workspace entry.action }
        ensures acted { IfOk result (λ receipt. HasActed pass.old entry receipt pass.new) }
        ensures fetched { IfOk result (λ receipt. IsReplyIn self.now.opened.workspace receipt.reply) }
        ensures unheard { OnErr result (HasSeenMore pass.old pass.new) }
        ensures past { IsPast self.now.opened.workspace pass.new.seen }
    {
        self.turns.enter(rt, &mut pass.seat);
        self.turns.work(alloc, &mut pass.seat, entry)
    }

    /// A new pass, which has seen what this one has. It takes no memory.
    pub fn split(&self, pass: &mut Pass) -> Result<Pass, OutOfMemory>
        requires own { pass.old.lock ≡ self.now }
        requires root { HasPassNumber pass.old.stands 0 }
        requires few { pass.old.split < 4_294_967_295 }
        ensures left { pass.new ≡ after_split pass.old }
        ensures new { IfOk result (λ new. new ≡ split_from pass.old) }
        ensures free { IsOk result }
    {
        let table = &self.turns.table.shared;
        let seat = table.split_seat::<SplitSeat>(&mut pass.seat);
        Ok(Pass { seat })
    }

    /// Takes another pass in. It takes no memory.
    pub fn join(&self, pass: &mut Pass, other: Pass)
        requires own { pass.old.lock ≡ self.now }
        requires other { other.lock ≡ self.now }
        ensures joined { pass.new ≡ joined_with pass.old other }
    {
        let Pass { seat } = other;
        let table = &self.turns.table.shared;
        table.join_seat::<JoinSeats>(&mut pass.seat, seat);
    }

    /// Ends the lock with its only pass, and gives the workspace and the journal. It takes no memory.
    pub fn close(self, pass: Pass) -> (Hangar, Journal)
        requires own { pass.lock ≡ self }
        requires whole { IsWhole pass }
        ensures seen { StartsWith result.1 pass.seen }
        ensures hangar { result.0.workspace ≡ after_entries self.opened.workspace result.1 }
        ensures past { IsPast self.opened.workspace result.1 }
        ensures right { StandIn pass.mine result.1 }
        ensures all { HaveAllOf pass.mine result.1 }
    {
        let HangarLock { turns } = self;
        let Turnstile { table } = turns;
        let Pass { seat } = pass;
        let mut closed = table.close_with(seat);
        let slot = closed.take(0);
        closed.free();
        match slot {
            Some(Desk { hangar, journal }) => (hangar, journal),
            None => unreachable!(),
        }
    }
}
