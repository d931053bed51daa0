//! The rule of the table, and the kinds of step on it.

use crate::desk::Desk;
use crate::views::View;
use atomic_table::{Join, Play, Seat, Split, Table, TableRule};
use hangar_core::Hangar;
use std::alloc::Global;
use std::snapshot::Snapshot;

/// There is one journal; of each pass a front of it is seen, and its places are right.
pub(crate) struct OneJournal;

impl TableRule<Option<Desk>, View, Snapshot<Hangar>> for OneJournal {
    ghost use Rattle.hangar_lock.specs.OneJournal.{HasOneJournal};
    ghost use Rattle.hangar_lock.specs.Views.{first_view};

    ghost holds = { λ key. HasOneJournal key.value };

    ghost first = { λ key. first_view key.value };
}

/// A ticket is drawn.
pub(crate) struct DrawTicket;

impl Play<Option<Desk>, View> for DrawTicket {
    ghost use Rattle.hangar_lock.specs.Steps.{Draws};

    ghost then = { Draws };
}

/// A look at the turn; where it is the pass's own, it takes the workspace and the journal.
pub(crate) struct LookAtTurn;

impl Play<Option<Desk>, View> for LookAtTurn {
    ghost use Rattle.hangar_lock.specs.Steps.{Looks};

    ghost then = { Looks };
}

/// The turn is passed on, and the workspace and the journal are given back.
pub(crate) struct PassTurnOn;

impl Play<Option<Desk>, View> for PassTurnOn {
    ghost use Rattle.hangar_lock.specs.Steps.{PassesOn};

    ghost then = { PassesOn };
}

/// A pass is split.
pub(crate) struct SplitSeat;

impl Split<View> for SplitSeat {
    ghost use Rattle.hangar_lock.specs.Views.{splitting, split_off};

    ghost left = { splitting };

    ghost right = { split_off };
}

/// Another pass is joined into a pass.
pub(crate) struct JoinSeats;

impl Join<View> for JoinSeats {
    ghost use Rattle.hangar_lock.specs.Views.{joining, spent};

    ghost both = { joining };

    ghost spent = { spent };
}

pub(crate) type TurnTable = Table<Option<Desk>, View, Snapshot<Hangar>, OneJournal, Global>;

pub(crate) type PassSeat = Seat<Option<Desk>, View>;
