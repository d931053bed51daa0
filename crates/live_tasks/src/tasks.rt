//! The tasks of a run that are live, by number, and what a batch does to them.

ghost use Rattle.std.specs.Prelude.{◌≡◌, ◌≢◌, ◌<◌, ◌≤◌, ◌^◌, ◌∷◌, ℕ, [], true, false, None, Some, List, length, IfOk, OnOk};
ghost use Rattle.aerie_base.specs.Paths.{root};
ghost use Rattle.aerie_base.specs.declared.plans.Edge.TheVariants.{Start};
ghost use Rattle.effect_cells.specs.declared.effects.CellState.{CellState};
ghost use Rattle.run_data.specs.Endings.{after_batch};
ghost use Rattle.run_data.specs.TaskFrames.{Frame as FrameOf};
ghost use Rattle.run_data.specs.Tasks.{children_in, after_frames, on_each, rested, ready_jobs};
ghost use Rattle.run_data.specs.laws.BatchFrames.{AreFramesOf};
ghost use Rattle.run_data.specs.laws.LiveParts.{live};
ghost use Rattle.run_data.specs.laws.NextTimes.{least_delay};
ghost use Rattle.live_tasks.specs.declared.origins.Origin.TheVariants.{Ready, Child};
ghost use Rattle.live_tasks.specs.Endings.{FallDue, OneEnds, RootStarts, Settles, TakesStep, TakesChild, TakesOne, EndsBatch, MayTake, MayMake, IfReady, HasTakenAll, ChildrenAreFew};
ghost use Rattle.live_tasks.specs.Followers.{AreFollowers};
ghost use Rattle.live_tasks.specs.FrameOrders.{AreByPath};
ghost use Rattle.live_tasks.specs.ListedSlots.{ListsExactly, KeepsAll, KeepsExactly, KeepsWaits, AreWaitsKeptFor};
ghost use Rattle.live_tasks.specs.Listing.{is_ready_slot};
ghost use Rattle.live_tasks.specs.Slots.{slot_at};
ghost use Rattle.live_tasks.specs.InStep.{slots_in, live_count, table_in, IsInStep};
ghost use Rattle.live_tasks.specs.Waking.{KeepsWakesBut};
ghost use Rattle.live_tasks.specs.LeastTimes.{IsUpToTime};

use crate::batch_origins::put_origins;
use crate::delays::least_end;
use crate::followers::{Follower, fall_all};
use crate::listed_slots::ListedSlots;
use crate::origins::Origin;
use crate::readies::put_jobs;
use crate::ready_jobs::ReadyJobs;
use crate::slots::{Slot, has_ended};
use aerie_base::{Edge, OutOfMemory, Path, Shared, Time, Value};
use effect_cells::{Cells, waiting_depends_on_cells_read};
use run_data::Frame;
use std::alloc::Global;
use std::mem;

/// The live tasks by number, and those that are or were anchored, in order of the ids of the directives that they follow. The room
/// for where the frames of a batch come from, and for the numbers of their tasks, is kept from batch to batch.
#[derive(Drop)]
pub struct LiveTasks {
    pub tables: ListedSlots,
    pub followers: Vec<Follower>,
    origins: Vec<Origin>,
    numbers: Vec<usize>,
}

impl LiveTasks {
    /// No task; so many cells may be waited for.
    pub fn new(alloc: Global, cells: usize) -> Result<LiveTasks, OutOfMemory>
        ensures slots { IfOk result (λ tasks. slots_in tasks ≡ []) }
        ensures listed { IfOk result (λ tasks. ListsExactly tasks.tables) }
        ensures followers { IfOk result (λ tasks. AreFollowers (slots_in tasks) tasks.followers.items) }
        ensures waits { IfOk result (λ tasks. AreWaitsKeptFor cells tasks.tables) }
    {
        let tables = ListedSlots::new(alloc, cells)?;
        Ok(LiveTasks::with_followers(alloc, tables, Vec::new(alloc)))
    }

    /// These tasks and followers; no room is kept for a batch yet.
    pub fn with_followers(alloc: Global, tables: ListedSlots, followers: Vec<Follower>) -> LiveTasks
        ensures tables { result.tables ≡ tables }
        ensures followers { result.followers ≡ followers }
    {
        LiveTasks {
            tables,
            followers,
            origins: Vec::new(alloc),
            numbers: Vec::new(alloc),
        }
    }

    /// An edge of the directive with an id has come: who is anchored to it falls due. It takes a time in the order of the number of those
    /// that follow that directive.
    pub fn come(&mut self, now: Time, to: u32, edge: Edge) -> Result<(), OutOfMemory>
        requires { AreFollowers (slots_in self.old) self.old.followers.items }
        ensures followers { self.new.followers ≡ self.old.followers }
        ensures falls { OnOk result (FallDue now to edge (slots_in self.old) (slots_in self.new)) }
        ensures length { OnOk result (live_count self.new ≡ live_count self.old) }
        ensures stay { OnOk result (AreFollowers (slots_in self.new) self.new.followers.items) }
        ensures listed { OnOk result (KeepsExactly self.old.tables self.new.tables) }
        ensures waits { OnOk result (KeepsWaits self.old.tables self.new.tables) }
    {
        fall_all(&mut self.tables, self.followers.as_slice(), now, to, edge)?;
        Ok(())
    }

    /// The task of a number, if it has ended, is taken out, and its parent is told, or where it has none who follows its end.
    /// The parent is the next that may have ended.
    pub fn end_one(
        &mut self,
        alloc: Global,
        now: Time,
        number: usize,
    ) -> Result<Option<usize>, OutOfMemory>
        requires { AreFollowers (slots_in self.old) self.old.followers.items }
        ensures followers { self.new.followers ≡ self.old.followers }
        ensures ends { IfOk result (OneEnds now (slots_in self.old) number (slots_in self.new)) }
        ensures stay { OnOk result (AreFollowers (slots_in self.new) self.new.followers.items) }
        ensures fewer { IfOk result (λ next. next ≢ None → live_count self.new < live_count self.old) }
        ensures most { OnOk result (live_count self.new ≤ live_count self.old) }
        ensures listed { OnOk result (KeepsExactly self.old.tables self.new.tables) }
        ensures waits { OnOk result (KeepsWaits self.old.tables self.new.tables) }
    {
        if !has_ended(&self.tables.slots, number) {
            return Ok(None);
        }
        let ended = self.tables.take_out(number);
        match ended.parent {
            Some(parent) => {
                let value = ended.task.result();
                self.tables.tell(alloc, parent, ended.own, value)?;
                Ok(Some(parent))
            }
            None => {
                let path = ended.path.get();
                if !path.daemon() {
                    self.come(now, path.id(), Edge::End)?;
                }
                Ok(None)
            }
        }
    }

    /// The task of a number may have ended: if it has, it is taken out, and those above it that have ended with it.
    pub fn settle(&mut self, alloc: Global, now: Time, number: usize) -> Result<(), OutOfMemory>
        requires { AreFollowers (slots_in self.old) self.old.followers.items }
        ensures followers { self.new.followers ≡ self.old.followers }
        ensures stay { OnOk result (AreFollowers (slots_in self.new) self.new.followers.items) }
        ensures ends { OnOk result ((frames : List FrameOf) (todo : List ℕ) →
            Settles now frames (number ∷ todo) frames todo (slots_in self.old) (slots_in self.new)) }
        ensures listed { OnOk result (KeepsExactly self.old.tables self.new.tables) }
        ensures waits { OnOk result (KeepsWaits self.old.tables self.new.tables) }
    {
        let mut next = Some(number);
        while let Some(here) = next {
            next = self.end_one(alloc, now, here)?;
        }
        Ok(())
    }

    /// A frame of the task of a number.
    pub fn step(
        &mut self,
        alloc: Global,
        now: Time,
        number: usize,
        frame: &Frame,
    ) -> Result<(), OutOfMemory>
        requires few { MayMake (slots_in self.old) number (children_in frame.now.items) }
        requires ready { is_ready_slot (slot_at (slots_in self.old) number) ≡ true }
        ensures followers { self.new.followers ≡ self.old.followers }
        ensures takes { OnOk result (TakesStep now number frame.now (slots_in self.old) (slots_in self.new)) }
        ensures listed { OnOk result (KeepsAll self.old.tables self.new.tables) }
        ensures waits { OnOk result (KeepsWaits self.old.tables self.new.tables) }
    {
        self.tables.step(alloc, now, number, frame)?;
        Ok(())
    }

    /// The first frame of a child, with its number among those of the task of a number.
    pub fn begin_child(
        &mut self,
        alloc: Global,
        now: Time,
        parent: usize,
        own: u32,
        frame: &Frame,
    ) -> Result<usize, OutOfMemory>
        requires { children_in frame.now.items < 2 ^ 32 }
        ensures followers { self.new.followers ≡ self.old.followers }
        ensures takes { IfOk result (
            TakesChild now parent own frame.now (slots_in self.old) (slots_in self.new)) }
        ensures listed { OnOk result (KeepsAll self.old.tables self.new.tables) }
        ensures waits { OnOk result (KeepsWaits self.old.tables self.new.tables) }
    {
        let child = Slot::first(alloc, now, parent, own, frame)?;
        let number = self.tables.insert(child)?;
        self.tables.count(parent)?;
        Ok(number)
    }

    /// A frame, by its origin: of frames before it the tasks have these numbers.
    fn take_one(
        &mut self,
        alloc: Global,
        now: Time,
        frame: &Frame,
        origin: Origin,
        numbers: &[usize],
    ) -> Result<usize, OutOfMemory>
        requires few { children_in frame.now.items < 2 ^ 32 }
        requires more_few { IfReady origin (λ number.
            MayMake (slots_in self.old) number (children_in frame.now.items)) }
        requires ready { IfReady origin (λ number.
            is_ready_slot (slot_at (slots_in self.old) number) ≡ true) }
        requires maker { (maker own : ℕ) → origin ≡ Child maker own → maker < length numbers.now }
        ensures followers { self.new.followers ≡ self.old.followers }
        ensures takes { IfOk result (
            TakesOne now frame.now origin numbers.now (slots_in self.old) (slots_in self.new)) }
        ensures listed { OnOk result (KeepsAll self.old.tables self.new.tables) }
        ensures waits { OnOk result (KeepsWaits self.old.tables self.new.tables) }
    {
        match origin {
            Origin::Ready(number) => {
                self.step(alloc, now, number, frame)?;
                Ok(number)
            }
            Origin::Child { maker, own } => {
                let number = self.begin_child(alloc, now, numbers[maker], own, frame)?;
                Ok(number)
            }
        }
    }

    /// The frames of a batch, with their origins. The numbers of their tasks take the place of other numbers.
    pub fn take(
        &mut self,
        alloc: Global,
        now: Time,
        frames: &[Frame],
        origins: &[Origin],
        numbers: &mut Vec<usize>,
    ) -> Result<(), OutOfMemory>
        requires { MayTake now (slots_in self.old) frames.now origins.now }
        ensures followers { self.new.followers ≡ self.old.followers }
        ensures taken { OnOk result (
            HasTakenAll now frames.now (slots_in self.old) numbers.new.items (slots_in self.new)) }
        ensures listed { OnOk result (KeepsAll self.old.tables self.new.tables) }
        ensures waits { OnOk result (KeepsWaits self.old.tables self.new.tables) }
    {
        numbers.clear();
        for place in 0..frames.len() {
            let number = self.take_one(
                alloc,
                now,
                &frames[place],
                origins[place],
                numbers.as_slice(),
            )?;
            numbers.push(number)?;
        }
        Ok(())
    }

    /// An edge of a directive's start, where a frame is of one.
    fn start(&mut self, now: Time, frame: &Frame) -> Result<(), OutOfMemory>
        requires { AreFollowers (slots_in self.old) self.old.followers.items }
        ensures followers { self.new.followers ≡ self.old.followers }
        ensures root { OnOk result (RootStarts now frame.now.path (slots_in self.old) (slots_in self.new)) }
        ensures other { OnOk result (((to : ℕ) → frame.now.path ≡ root to → ⊥) → self.new ≡ self.old) }
        ensures listed { OnOk result (KeepsExactly self.old.tables self.new.tables) }
        ensures waits { OnOk result (KeepsWaits self.old.tables self.new.tables) }
    {
        if frame.path().daemon() {
            return Ok(());
        }
        let children = frame.path().children();
        if children.len() > 0 {
            return Ok(());
        }
        self.come(now, frame.path().id(), Edge::Start)?;
        Ok(())
    }

    /// The end of a batch: with these frames directives began, and tasks of these numbers may have ended.
    pub fn end_batch(
        &mut self,
        alloc: Global,
        now: Time,
        frames: &[Frame],
        numbers: &[usize],
    ) -> Result<(), OutOfMemory>
        requires { AreFollowers (slots_in self.old) self.old.followers.items }
        ensures followers { self.new.followers ≡ self.old.followers }
        ensures stay { OnOk result (AreFollowers (slots_in self.new) self.new.followers.items) }
        ensures ends { OnOk result (
            EndsBatch now frames.now numbers.now (slots_in self.old) (slots_in self.new)) }
        ensures listed { OnOk result (KeepsExactly self.old.tables self.new.tables) }
        ensures waits { OnOk result (KeepsWaits self.old.tables self.new.tables) }
    {
        for frame in frames {
            self.start(now, frame)?;
        }
        for number in numbers {
            self.settle(alloc, now, *number)?;
        }
        Ok(())
    }

    /// A batch with these frames, which have these origins.
    fn take_batch(
        &mut self,
        alloc: Global,
        now: Time,
        frames: &[Frame],
        origins: &[Origin],
    ) -> Result<(), OutOfMemory>
        requires may { MayTake now (slots_in self.old) frames.now origins.now }
        requires followers { AreFollowers (slots_in self.old) self.old.followers.items }
        requires listed { ListsExactly self.old.tables }
        ensures table { OnOk result (
            table_in self.new ≡ live (after_batch now frames.now (table_in self.old))) }
        ensures in_step { OnOk result (IsInStep self.new) }
        ensures waits { OnOk result (KeepsWaits self.old.tables self.new.tables) }
    {
        let mut numbers = mem::replace(&mut self.numbers, Vec::new(alloc));
        self.take(alloc, now, frames, origins, &mut numbers)?;
        self.tables.relist();
        self.end_batch(alloc, now, frames, numbers.as_slice())?;
        self.numbers = numbers;
        Ok(())
    }

    /// After a committed batch with these frames, which are in order of path, before its cells are touched: the live part of the
    /// table after it.
    fn go_on(&mut self, alloc: Global, now: Time, frames: &[Frame]) -> Result<(), OutOfMemory>
        requires in_step { IsInStep self.old }
        requires order { AreByPath frames.now }
        requires frames { AreFramesOf (table_in self.old) frames.now }
        requires few { ChildrenAreFew (after_frames now frames.now (table_in self.old)) }
        ensures table { OnOk result (
            table_in self.new ≡ live (after_batch now frames.now (table_in self.old))) }
        ensures in_step { OnOk result (IsInStep self.new) }
        ensures waits { OnOk result (KeepsWaits self.old.tables self.new.tables) }
    {
        self.tables.order(alloc)?;
        let mut origins = mem::replace(&mut self.origins, Vec::new(alloc));
        let readies = self.tables.readies.as_slice();
        put_origins(&self.tables.slots, readies, frames, &mut origins)?;
        self.take_batch(alloc, now, frames, origins.as_slice())?;
        self.origins = origins;
        Ok(())
    }

    /// After a committed batch with these frames, which are in order of path, and which touched these cells: the live part of the
    /// table after it. It takes a time in the order of the number of frames, of those whom they let go on, and of those who watch
    /// one of the cells.
    pub fn after_batch(
        &mut self,
        alloc: Global,
        now: Time,
        frames: &[Frame],
        touched: &[u16],
    ) -> Result<(), OutOfMemory>
        requires in_step { IsInStep self.old }
        requires order { AreByPath frames.now }
        requires frames { AreFramesOf (table_in self.old) frames.now }
        requires few { ChildrenAreFew (after_frames now frames.now (table_in self.old)) }
        ensures table { OnOk result (
            table_in self.new ≡ live (after_batch now frames.now (table_in self.old))) }
        ensures in_step { OnOk result (IsInStep self.new) }
        ensures kept { OnOk result (KeepsWakesBut touched.now self.old self.new) }
    {
        waiting_depends_on_cells_read();
        self.go_on(alloc, now, frames)?;
        self.tables.waits.touch(touched)?;
        Ok(())
    }

    /// At a time, before which no delay ends: those go on whose delay ends then.
    pub fn rest(&mut self, now: Time) -> Result<(), OutOfMemory>
        requires in_step { IsInStep self.old }
        requires due { IsUpToTime now (least_delay (table_in self.old)) }
        ensures table { OnOk result (table_in self.new ≡ on_each (rested now) (table_in self.old)) }
        ensures in_step { OnOk result (IsInStep self.new) }
        ensures waits { OnOk result (KeepsWaits self.old.tables self.new.tables) }
    {
        self.tables.rest(now)?;
        Ok(())
    }

    /// Whether a task is ready.
    pub fn is_ready(&self) -> bool
        requires { IsInStep self.now }
        ensures none { result ≡ false → (cells : List CellState) → ready_jobs cells (table_in self.now) ≡ [] }
        ensures some { result ≡ true →
            (cells : List CellState) → ready_jobs cells (table_in self.now) ≡ [] → ⊥ }
    {
        self.tables.is_ready()
    }

    /// In place of other jobs, those of the ready tasks, in order of path, each with this view of the cells. Nothing is sorted where
    /// they are in order, as one alone is.
    pub fn ready(
        &mut self,
        alloc: Global,
        view: &Shared<Cells>,
        jobs: &mut ReadyJobs,
    ) -> Result<(), OutOfMemory>
        requires { IsInStep self.old }
        ensures jobs { OnOk result (jobs.new ≡ ready_jobs view.now (table_in self.old)) }
        ensures table { OnOk result (table_in self.new ≡ table_in self.old) }
        ensures in_step { OnOk result (IsInStep self.new) }
        ensures waits { OnOk result (KeepsWaits self.old.tables self.new.tables) }
    {
        self.tables.order(alloc)?;
        let readies = self.tables.readies.as_slice();
        put_jobs(&self.tables.slots, readies, view, jobs)?;
        Ok(())
    }

    /// The least time at which a delay ends.
    pub fn next_delay(&self) -> Option<u64>
        requires { IsInStep self.now }
        ensures { result ≡ least_delay (table_in self.now) }
    {
        least_end(&self.tables.delays)
    }
}
