//! Who watches which cell.

ghost use Rattle.std.specs.Prelude.{◌≡◌, true, nat_eq, length, IfOk, OnOk};
ghost use Rattle.std.specs.List.{filter};
ghost use Rattle.effect_cells.specs.ReadCells.{reads_operand, reads_side, reads_terms, reads_cell};
ghost use Rattle.live_tasks.specs.declared.wake_times.Watcher.{Watcher as Watching};
ghost use Rattle.live_tasks.specs.WakeTimes.{numbered_wait, is_stale, is_current, MayGoStale, AreWakesOf};
ghost use Rattle.live_tasks.specs.Watchers.{IsWatcherAmong, WatchesToo};

use crate::wake_times::{WakeTimes, Watcher};
use aerie_base::{Cond, Linear, List, Operand, OutOfMemory, Simple};
use std::alloc::Global;

/// Nobody watches any of so many cells.
pub fn unwatched(alloc: Global, cells: usize) -> Result<List<List<Watcher>>, OutOfMemory>
    ensures { IfOk result (λ watchers. length watchers ≡ cells) }
{
    let mut watchers = List::with_capacity(alloc, cells)?;
    while watchers.items.len() < cells {
        watchers.items.push(List::new(alloc))?;
    }
    Ok(watchers)
}

/// The same watchers once more.
pub fn copy_watchers(
    alloc: Global,
    watchers: &List<List<Watcher>>,
) -> Result<List<List<Watcher>>, OutOfMemory>
    ensures { IfOk result (λ copy. copy ≡ watchers.now) }
{
    let mut all = List::with_capacity(alloc, watchers.len())?;
    for some in watchers.as_slice() {
        let copied = Vec::from_slice(alloc, some.as_slice())?;
        all.push(List::from_vec(copied))?;
    }
    Ok(all)
}

/// One more watches a cell, if there is such a cell.
fn watch_cell(
    watchers: &mut List<List<Watcher>>,
    cell: u16,
    watcher: Watcher,
) -> Result<(), OutOfMemory>
    ensures { OnOk result (WatchesToo (nat_eq cell) watcher watchers.old watchers.new) }
{
    let at = usize::from(cell);
    if at < watchers.items.len() {
        watchers.items[at].items.push(watcher)?;
    }
    Ok(())
}

/// The same of the cell that an operand reads.
fn watch_operand(
    watchers: &mut List<List<Watcher>>,
    operand: Operand,
    watcher: Watcher,
) -> Result<(), OutOfMemory>
    ensures { OnOk result (WatchesToo (reads_operand operand) watcher watchers.old watchers.new) }
{
    match operand {
        Operand::Read(read) => watch_cell(watchers, read.cell(), watcher),
        Operand::Local(_) => Ok(()),
    }
}

/// The same of a side of an equality.
fn watch_side(
    watchers: &mut List<List<Watcher>>,
    side: &Simple,
    watcher: Watcher,
) -> Result<(), OutOfMemory>
    ensures { OnOk result (WatchesToo (reads_side side.now) watcher watchers.old watchers.new) }
{
    match side {
        Simple::Literal(_) => Ok(()),
        Simple::Operand(operand) => watch_operand(watchers, *operand, watcher),
    }
}

/// The same of a linear form.
fn watch_terms(
    watchers: &mut List<List<Watcher>>,
    form: &Linear,
    watcher: Watcher,
) -> Result<(), OutOfMemory>
    ensures { OnOk result (WatchesToo (reads_terms form.now.terms) watcher watchers.old watchers.new) }
{
    for term in form.terms.as_slice() {
        watch_operand(watchers, term.operand, watcher)?;
    }
    Ok(())
}

/// One more watches the cells that a condition reads. It takes a time in the order of the condition's size.
pub fn watch(
    watchers: &mut List<List<Watcher>>,
    condition: &Cond,
    watcher: Watcher,
) -> Result<(), OutOfMemory>
    ensures { OnOk result (WatchesToo (reads_cell condition.now) watcher watchers.old watchers.new) }
{
    match condition {
        Cond::Literal(_) => Ok(()),
        Cond::Flag(operand) => watch_operand(watchers, *operand, watcher),
        Cond::Same { left, right, .. } => {
            watch_side(watchers, left, watcher)?;
            watch_side(watchers, right, watcher)
        }
        Cond::Compare { left, right, .. } => {
            watch_terms(watchers, left, watcher)?;
            watch_terms(watchers, right, watcher)
        }
        Cond::Not(part) => watch(watchers, part.get(), watcher),
        Cond::And(left, right) => {
            watch(watchers, left.get(), watcher)?;
            watch(watchers, right.get(), watcher)
        }
        Cond::Or(left, right) => {
            watch(watchers, left.get(), watcher)?;
            watch(watchers, right.get(), watcher)
        }
    }
}

/// A cell of these watchers was touched: the wake times of those that still wait are to be found anew, and the others are
/// left out, so that each of them is met once.
pub fn touch_all(watchers: &mut List<Watcher>, times: &mut WakeTimes) -> Result<(), OutOfMemory>
    ensures left { OnOk result (watchers.new ≡ filter (is_current times.old.by_number.items) watchers.old) }
    ensures may { OnOk result (MayGoStale times.old.by_number.items times.new.by_number.items) }
    ensures stale { OnOk result ((watcher : Watching) → IsWatcherAmong watcher watchers.old
        → is_current times.old.by_number.items watcher ≡ true
        → is_stale (numbered_wait times.new.by_number.items watcher.number) ≡ true) }
    ensures wakes { OnOk result (AreWakesOf times.old → AreWakesOf times.new) }
{
    let mut kept = 0;
    for at in 0..watchers.items.len() {
        let watcher = watchers.items[at];
        if times.touch(watcher)? {
            watchers.items[kept] = watcher;
            kept += 1;
        }
    }
    watchers.items.truncate(kept);
    Ok(())
}
