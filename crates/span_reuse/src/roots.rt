//! The directives and daemons that tasks come from.

ghost use Rattle.std.specs.Prelude.{◌≡◌};
ghost use Rattle.aerie_base.specs.Paths.{comes_from_daemon, id_of};
ghost use Rattle.span_reuse.specs.Roots.{comes_from_one, is_root, same_flag};

use aerie_base::Path;

/// The directive or daemon that a task comes from.
#[derive(Clone, Copy)]
pub(crate) struct TaskRoot {
    /// Whether it is a daemon.
    daemon: bool,
    /// Its id.
    id: u32,
}

/// Whether two flags are the same.
fn same_flag(flag: bool, other: bool) -> bool
    ensures { result ≡ same_flag flag other }
{
    if flag { other } else { !other }
}

impl TaskRoot {
    /// That of the task of a path.
    pub(crate) fn of(path: &Path) -> TaskRoot
        ensures { result ≡ record { daemon = comes_from_daemon path.now; id = id_of path.now } }
    {
        TaskRoot {
            daemon: path.daemon(),
            id: path.id(),
        }
    }

    /// Whether the task of a path comes from it.
    fn is_of(&self, path: &Path) -> bool
        ensures { result ≡ is_root (comes_from_daemon path.now) (id_of path.now) self.now }
    {
        same_flag(self.daemon, path.daemon()) && self.id == path.id()
    }
}

/// Whether the task of a path comes from one of these.
pub(crate) fn is_among(roots: &[TaskRoot], path: &Path) -> bool
    ensures { result ≡ comes_from_one roots.now path.now }
{
    for root in roots {
        if root.is_of(path) {
            return true;
        }
    }
    false
}
