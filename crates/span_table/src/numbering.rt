//! The number of each path: that of a task that was seen, or the next one.

ghost use Rattle.std.specs.Prelude.{◌≡◌, [], None, IfOk, IfSome, IsTrue};
ghost use Rattle.aerie_base.specs.Paths.{path_of, comes_from_daemon, id_of};
ghost use Rattle.span_table.specs.KnownTasks.{GetsNumber, IsChild, IsMaker, IsNumbered, IsPathAt, known_task, links_of};

use crate::known_tasks::{Ending, KnownTask, KnownTasks};
use aerie_base::{OutOfMemory, Path, Shared};
use std::alloc::Global;

/// How many numbers of children a path has at most.
const MOST_CHILDREN: usize = 64;

/// One task more.
fn add(
    tasks: &mut KnownTasks,
    path: &Shared<Path>,
    above: Option<usize>,
) -> Result<usize, OutOfMemory>
    requires { known_task tasks.old.entries path.now ≡ None }
    ensures { IfOk result (λ number. GetsNumber path.now above number tasks.old.entries tasks.new.entries) }
{
    let number = tasks.len();
    let path = path.share()?;
    let task = KnownTask {
        above,
        body: None,
        ending: Ending::After(None),
    };
    tasks.insert(path, task)?;
    Ok(number)
}

/// The number of a path, of which it is known which task made it.
fn number_below(
    tasks: &mut KnownTasks,
    path: &Shared<Path>,
    above: Option<usize>,
) -> Result<usize, OutOfMemory>
    ensures { IfOk result (λ number. GetsNumber path.now above number tasks.old.entries tasks.new.entries) }
{
    match tasks.get_full(path) {
        Some((number, _, _)) => Ok(number),
        None => add(tasks, path, above),
    }
}

/// The same of a path that nobody shares yet.
fn number_of_path(
    alloc: Global,
    tasks: &mut KnownTasks,
    path: &Path,
    above: Option<usize>,
) -> Result<usize, OutOfMemory>
    ensures { IfOk result (λ number. GetsNumber path.now above number tasks.old.entries tasks.new.entries) }
{
    let path = Shared::new(alloc, path.copy(alloc)?)?;
    let number = number_below(tasks, &path, above)?;
    Ok(number)
}

/// The directive or daemon that a task comes from.
fn root_of(alloc: Global, path: &Path) -> Result<Path, OutOfMemory>
    ensures { IfOk result (λ root. root ≡ path_of (comes_from_daemon path.now) (id_of path.now) []) }
{
    if path.daemon() {
        return Path::of_daemon(alloc, path.id());
    }
    Path::of_directive(alloc, path.id())
}

/// The number of a path; each path above it gets one too.
fn number_from_root(
    alloc: Global,
    tasks: &mut KnownTasks,
    path: &Path,
) -> Result<usize, OutOfMemory>
    ensures { IfOk result (λ number. IsNumbered path.now number tasks.old.entries tasks.new.entries) }
{
    let mut above = root_of(alloc, path)?;
    let mut at = number_of_path(alloc, tasks, &above, None)?;
    for number in path.children() {
        let Some(below) = above.child(alloc, *number)? else {
            unreachable!();
        };
        at = number_of_path(alloc, tasks, &below, Some(at))?;
        above = below;
    }
    Ok(at)
}

/// Whether a path is that of a child of the other.
fn is_child(path: &Path, other: &Path) -> bool
    ensures { IsTrue result → IsChild other.now path.now }
{
    path.children().len() == other.children().len() + 1 && path.is_under(other)
}

/// The number of the task that made the one of a path, if it is the one with a number that is near, or above that one.
fn maker_near(tasks: &KnownTasks, path: &Path, near: Option<usize>) -> Option<usize>
    ensures { IfSome result (λ number. IsMaker (links_of tasks.now.entries) number path.now) }
{
    let mut at = near;
    for _ in 0..=MOST_CHILDREN {
        let here = at?;
        let (other, task) = tasks.get_index(here)?;
        if is_child(path, other.get()) {
            return Some(here);
        }
        at = task.above;
    }
    None
}

/// The number of a path that is that of the task with a number that is near, or of the one that made it.
fn number_near(tasks: &KnownTasks, path: &Path, near: Option<usize>) -> Option<usize>
    ensures { IfSome result (λ number. IsPathAt (links_of tasks.now.entries) number path.now) }
{
    let near = near?;
    let (other, task) = tasks.get_index(near)?;
    if other.get().is_same(path) {
        return Some(near);
    }
    let above = task.above?;
    let (maker, _) = tasks.get_index(above)?;
    if maker.get().is_same(path) {
        return Some(above);
    }
    None
}

/// The number of a path, looked up by it. That of the task of the frame before is near: a task makes a child in the same
/// batch, and its frame comes before the child's.
fn number_by_path(
    alloc: Global,
    tasks: &mut KnownTasks,
    path: &Shared<Path>,
    near: Option<usize>,
) -> Result<usize, OutOfMemory>
    ensures { IfOk result (λ number. IsNumbered path.now number tasks.old.entries tasks.new.entries) }
{
    if let Some((number, _, _)) = tasks.get_full(path) {
        return Ok(number);
    }
    if path.get().children().is_empty() {
        return add(tasks, path, None);
    }
    match maker_near(tasks, path.get(), near) {
        Some(maker) => add(tasks, path, Some(maker)),
        None => number_from_root(alloc, tasks, path.get()),
    }
}

/// The number of a path. That of the task of the frame before is near: what resumes is often that task again, or the one that
/// called it.
pub(crate) fn number_of(
    alloc: Global,
    tasks: &mut KnownTasks,
    path: &Shared<Path>,
    near: Option<usize>,
) -> Result<usize, OutOfMemory>
    ensures { IfOk result (λ number. IsNumbered path.now number tasks.old.entries tasks.new.entries) }
{
    match number_near(tasks, path.get(), near) {
        Some(number) => Ok(number),
        None => number_by_path(alloc, tasks, path, near),
    }
}
