//! Lists that grow by what is there.

ghost use Rattle.std.specs.Prelude.{◌≡◌, ◌++◌, [], OnOk};
ghost use Rattle.std.specs.List.{cons_option};
ghost use Rattle.plan_merge.specs.Merging.{conflict_where};

use crate::answers::{Conflict, ConflictKind};
use aerie_base::{List, OutOfMemory};

/// Puts the item, where there is one, behind the last.
pub fn push_some<T: Drop>(list: &mut List<T>, item: Option<T>) -> Result<(), OutOfMemory>
    ensures { OnOk result (list.new ≡ list.old ++ cons_option item []) }
{
    match item {
        None => Ok(()),
        Some(item) => list.push(item),
    }
}

/// A conflict of a kind, where there is one.
pub fn conflict_where(kind: ConflictKind, id: u64, is: bool) -> Option<Conflict>
    ensures { result ≡ conflict_where kind id is }
{
    if is {
        Some(Conflict { id, kind })
    } else {
        None
    }
}
