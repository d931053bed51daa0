//! Paths of tasks, compared and used as keys.

use super::keys::{digest, is_before};
use aerie_base::{OutOfMemory, Path};
use std::alloc::Global;
use std::collections::{BTreeMap, BTreeSet};

/// The path below a directive or a daemon along the children with these numbers, or `None` where there are too many.
fn path_along(
    alloc: Global,
    daemon: bool,
    id: u32,
    children: &[u32],
) -> Result<Option<Path>, OutOfMemory> {
    let mut path = if daemon {
        Path::of_daemon(alloc, id)?
    } else {
        Path::of_directive(alloc, id)?
    };
    for number in children {
        match path.child(alloc, *number)? {
            Some(child) => path = child,
            None => return Ok(None),
        }
    }
    Ok(Some(path))
}

#[test]
fn compares_paths(rt: HostRuntime) {
    let alloc = rt.alloc();
    let pairs: [(bool, u32, &[u32], bool, u32, &[u32]); 3] = [
        (false, 2, &[5], false, 7, &[]),
        (false, 7, &[0, 2], false, 7, &[1]),
        (false, 10, &[], true, 0, &[]),
    ];
    for (daemon, id, children, later_daemon, later_id, later_children) in pairs {
        let path = path_along(alloc, daemon, id, children)
            .expect(&rt, "memory")
            .expect(&rt, "a path");
        let later = path_along(alloc, later_daemon, later_id, later_children)
            .expect(&rt, "memory")
            .expect(&rt, "a path");
        let copy = path.copy(alloc).expect(&rt, "memory");
        assert!(&rt; is_before(&path, &later) && path < later);
        assert!(&rt; !is_before(&later, &path) && !path.is_same(&later));
        assert!(&rt; path == copy && path.is_same(&copy));
        assert_eq!(&rt; digest(&path), digest(&copy));
    }
}

/// A map and a set with some paths.
fn with_paths(
    alloc: Global,
    paths: &[(u32, u32)],
) -> Result<(BTreeMap<Path, u32>, BTreeSet<Path>), OutOfMemory> {
    let mut tasks = BTreeMap::new(alloc);
    let mut opens = BTreeSet::new(alloc);
    for (id, number) in paths {
        let directive = Path::of_directive(alloc, *id)?;
        if let Some(child) = directive.child(alloc, *number)? {
            opens.insert(child)?;
        }
        tasks.insert(directive, *number)?;
    }
    Ok((tasks, opens))
}

#[test]
fn is_a_key_of_maps_and_sets(rt: HostRuntime) {
    let alloc = rt.alloc();
    let (tasks, opens) = with_paths(alloc, &[(7, 1), (3, 0), (5, 2)]).expect(&rt, "memory");
    let cases = [
        (2, None, false),
        (3, Some(0), true),
        (4, None, false),
        (7, Some(1), true),
        (8, None, false),
    ];
    for (id, number, is_open) in cases {
        let path = Path::of_directive(alloc, id).expect(&rt, "memory");
        assert_eq!(&rt; tasks.get(&path).copied(), number);
        assert_eq!(&rt; path.has_any_under(&opens), is_open, "of {id}");
    }
}
