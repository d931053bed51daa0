//! Turns by tickets.

ghost use Rattle.std.specs.Prelude.{◌≡◌, ◌∷◌, [], Some, None, true, false, IfOk, OnErr};
ghost use Rattle.hangar_core.specs.ValidWorkspaces.{IsActionOn};
ghost use Rattle.hangar_lock.specs.declared.desk.Desk.{Desk};
ghost use Rattle.hangar_lock.specs.Steps.{CanLeave, HasDrawn, HasEntered, HasLeft, HasTaken, HasTurn, IsIdle, IsWaiting, NotesEntry};
ghost use Rattle.hangar_lock.specs.Views.{leaving_with};

use crate::desk::Desk;
use crate::one_journal::{DrawTicket, LookAtTurn, PassSeat, PassTurnOn, TurnTable};
use crate::receipts::Receipt;
use aerie_base::OutOfMemory;
use hangar_core::Entry;
use std::alloc::Global;
use std::sync::Wait;
use std::thread;

/// The word that counts the tickets that were drawn.
const TICKETS: usize = 0;
/// The word that counts the turns that are over.
const TURNS: usize = 1;

/// The table with its two words and its slot.
#[derive(Drop)]
pub(crate) struct Turnstile {
    pub table: TurnTable,
    ghost one_slot: { (table.shared.table_id.words ≡ 2) × (table.shared.table_id.slots ≡ 1) },
}

impl Turnstile {
    /// Draws a ticket.
    fn draw(&self, seat: &mut PassSeat) -> u64
        requires own { seat.old.table_id ≡ self.now.table.shared.table_id }
        requires idle { IsIdle seat.old.me }
        ensures own { (seat.new.table_id ≡ seat.old.table_id) × (seat.new.id ≡ seat.old.id) }
        ensures drawn { HasDrawn seat.old.me seat.new.me result }
    {
        self.table.shared.fetch_add::<DrawTicket>(seat, TICKETS, 1)
    }

    /// Looks at the turn, and takes the workspace and the journal where it is the one of a ticket.
    fn look(&self, seat: &mut PassSeat, ticket: u64) -> bool
        requires own { seat.old.table_id ≡ self.now.table.shared.table_id }
        requires waits { IsWaiting ticket seat.old.me }
        ensures own { (seat.new.table_id ≡ seat.old.table_id) × (seat.new.id ≡ seat.old.id) }
        ensures turn { result ≡ true → HasTurn seat.old.me seat.new.me }
        ensures waits { result ≡ false → seat.new.me ≡ seat.old.me }
    {
        self.table.shared.load::<LookAtTurn>(seat, TURNS) == ticket
    }

    /// Waits for the turn of a ticket, and lets other threads run in the meantime.
    fn wait_turn<R: Wait>(&self, rt: &R, seat: &mut PassSeat, ticket: u64)
        requires own { seat.old.table_id ≡ self.now.table.shared.table_id }
        requires waits { IsWaiting ticket seat.old.me }
        ensures own { (seat.new.table_id ≡ seat.old.table_id) × (seat.new.id ≡ seat.old.id) }
        ensures turn { HasTurn seat.old.me seat.new.me }
    {
        for _ in rt.forever() {
            if self.look(seat, ticket) {
                return;
            }
            thread::yield_now();
        }
        unreachable!()
    }

    /// Waits until the workspace and the journal are the pass's own.
    pub fn enter<R: Wait>(&self, rt: &R, seat: &mut PassSeat)
        requires own { seat.old.table_id ≡ self.now.table.shared.table_id }
        requires idle { IsIdle seat.old.me }
        ensures own { (seat.new.table_id ≡ seat.old.table_id) × (seat.new.id ≡ seat.old.id) }
        ensures inside { HasEntered seat.old.me seat.new.me }
    {
        let ticket = self.draw(seat);
        self.wait_turn(rt, seat, ticket);
    }

    /// Takes the workspace and the journal out of the slot.
    fn take(&self, seat: &mut PassSeat) -> Desk
        requires own { seat.old.table_id ≡ self.now.table.shared.table_id }
        requires holds { (desk : Desk) × (seat.old.me.1 ≡ (0, Some desk) ∷ []) }
        ensures own { (seat.new.table_id ≡ seat.old.table_id) × (seat.new.id ≡ seat.old.id) }
        ensures taken { HasTaken seat.old.me seat.new.me result }
    {
        match self.table.shared.exchange(seat, 0, None) {
            Some(desk) => desk,
            None => unreachable!(),
        }
    }

    /// Puts them back.
    fn put(&self, seat: &mut PassSeat, desk: Desk)
        requires own { seat.old.table_id ≡ self.now.table.shared.table_id }
        requires holds { seat.old.me.1 ≡ (0, None) ∷ [] }
        ensures own { (seat.new.table_id ≡ seat.old.table_id) × (seat.new.id ≡ seat.old.id) }
        ensures put { seat.new.me ≡ (seat.old.me.0, (0, Some desk) ∷ []) }
    {
        let _nothing = self.table.shared.exchange(seat, 0, Some(desk));
    }

    /// Passes the turn on.
    fn pass_on(&self, seat: &mut PassSeat)
        requires own { seat.old.table_id ≡ self.now.table.shared.table_id }
        requires leaves { (desk : Desk) × CanLeave seat.old.me desk }
        ensures own { (seat.new.table_id ≡ seat.old.table_id) × (seat.new.id ≡ seat.old.id) }
        ensures left { HasLeft seat.old.me seat.new.me }
    {
        self.table.shared.fetch_add::<PassTurnOn>(seat, TURNS, 1);
    }

    /// Steps the workspace and notes the entry, and passes the turn on, also after want of memory.
    pub fn work(
        &self,
        alloc: Global,
        seat: &mut PassSeat,
        entry: Entry,
    ) -> Result<Receipt, OutOfMemory>
        requires own { seat.old.table_id ≡ self.now.table.shared.table_id }
        requires inside { (desk : Desk) × CanLeave seat.old.me desk × (seat.old.me.0.seen ≡ desk.journal) }
        requires action { IsActionOn seat.old.me.0.opened.workspace entry.action }
        ensures own { (seat.new.table_id ≡ seat.old.table_id) × (seat.new.id ≡ seat.old.id) }
        ensures worked { IfOk result (NotesEntry seat.old.me entry seat.new.me) }
        ensures unchanged { OnErr result (seat.new.me ≡ (leaving_with seat.old.me.0 seat.old.me.0.seen, [])) }
    {
        let mut desk = self.take(seat);
        let told = desk.act(alloc, entry);
        self.put(seat, desk);
        self.pass_on(seat);
        told
    }
}
