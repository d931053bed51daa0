//! Laws about tables of tasks and tasks by number, for an engine that never scans the table.

ghost use Rattle.run_data.specs.laws.EndedTasks.{EndedBelow, EndedByFrames, EndedByNumber, EndedByOpenBodies, NewlyEnded};
ghost use Rattle.run_data.specs.laws.GoingOn.{AllGoneOn, GoOnInTurn, GoOnOnce, NoneGoesOn, OthersStay, QuietAfter};
ghost use Rattle.run_data.specs.laws.NextTimes.{DueSplits, LeastDelayByNumber, LeastDueIs, LeastWakeByNumber, NoneIsDue};
ghost use Rattle.run_data.specs.laws.NumberedTasks.{AreInOrder, ChangedByNumber, ChangedInTurn, FoundByNumber, NewIsNotThere, OrderIsDistinct, OrderIsItself, PushedByNumber, PushKeepsDistinct, SetByNumber, SetKeepsDistinct};
ghost use Rattle.run_data.specs.laws.OrderedTables.{ChangesKeepOrder, LaterPutStands, PutIsThere, PutKeepsOrder, PutThenChanged, PutsExchange};
ghost use Rattle.run_data.specs.laws.ReadyTasks.{ReadyByIndex};

/// A table stays in order of path where a task is put and where all are changed.
pub fn tables_stay_in_order()
    ensures put { PutKeepsOrder }
    ensures changes { ChangesKeepOrder }
{}

/// A task that is put stands at its path, and the others stay: of two at one path the later stands, and two of different
/// paths may be put in either order.
pub fn tasks_are_put_by_path()
    ensures there { PutIsThere }
    ensures later { LaterPutStands }
    ensures exchange { PutsExchange }
    ensures changed { PutThenChanged }
{}

/// Tasks by number, each of another path, are a table: what is found, set, added or changed by number is so by path.
pub fn tasks_stand_by_number()
    ensures order { AreInOrder }
    ensures distinct { OrderIsDistinct }
    ensures itself { OrderIsItself }
    ensures found { FoundByNumber }
    ensures new { NewIsNotThere }
    ensures set { SetByNumber }
    ensures pushed { PushedByNumber }
    ensures changed { ChangedByNumber }
    ensures in_turn { ChangedInTurn }
    ensures set_distinct { SetKeepsDistinct }
    ensures pushed_distinct { PushKeepsDistinct }
{}

/// The next time is that of the least delay or of the least wake time, by number too, and it is told by a time at which some
/// task is due and none earlier.
pub fn due_splits()
    ensures splits { DueSplits }
    ensures delays { LeastDelayByNumber }
    ensures waits { LeastWakeByNumber }
    ensures least { LeastDueIs }
    ensures none { NoneIsDue }
{}

/// Whether a task has ended is told by the paths of the open bodies, and with a batch only what is above a frame whose
/// body is over ends.
pub fn endings_go_by_open_bodies()
    ensures by_open { EndedByOpenBodies }
    ensures number { EndedByNumber }
    ensures below { EndedBelow }
    ensures newly { NewlyEnded }
    ensures frames { EndedByFrames }
{}

/// An index of the ready tasks has their jobs in order.
pub fn ready_by_index()
    ensures { ReadyByIndex }
{}

/// After a batch only callers and anchored directives go on, those whose callee ended or whose anchor came with a frame of
/// it. They may go on one after another, each judged on the tasks as they are then, and none goes on a second time.
pub fn tasks_go_on_in_turn()
    ensures in_turn { GoOnInTurn }
    ensures all { AllGoneOn }
    ensures others { OthersStay }
    ensures quiet { QuietAfter }
    ensures none { NoneGoesOn }
    ensures once { GoOnOnce }
{}
