ghost use Rattle.std.specs.Prelude.{◌≡◌, ◌↔◌, IsTrue, IfOk};
ghost use Rattle.std.specs.Cmp.{partial_equiv_from_equiv};
ghost use Rattle.run_data.specs.Records.{same_task};
ghost use Rattle.run_data.specs.SameRecords.{hashed_alike, same_task_equivalence};
ghost use Rattle.run_data.specs.TaskHashes.{hashed_state};

use aerie_base::{List, OutOfMemory, Value, same_list};
use std::alloc::Global;
use std::hash::{Hash, Hasher};

/// A body of the model.
#[derive(Clone, Copy, Debug, PartialEq, Eq, Hash)]
pub enum BodyId {
    /// That of an activity type, counted from 0 in the order of the model.
    Activity(u16),
    /// That of a daemon, counted from 0 in the order of the model.
    Daemon(u16),
}

/// What a task keeps from one step to the next.
#[derive(Debug, Drop)]
pub struct TaskState {
    /// Its body.
    pub kind: BodyId,
    /// The place in the body from which it goes on.
    pub at: u32,
    /// The values of its locals, in the order of the slots, parameters first; one that is not set yet has 0.
    pub locals: List<Value>,
}

impl TaskState {
    /// An equal state.
    pub fn copy(&self, alloc: Global) -> Result<TaskState, OutOfMemory>
        ensures { IfOk result (λ copy. copy ≡ self.now) }
    {
        let locals = Vec::from_slice(alloc, self.locals.as_slice())?;
        Ok(TaskState {
            kind: self.kind,
            at: self.at,
            locals: List::from_vec(locals),
        })
    }

    /// Whether the two are the same state.
    pub fn is_same(&self, other: &TaskState) -> bool
        ensures { IsTrue result ↔ (self.now ≡ other.now) }
    {
        self.kind == other.kind
            && self.at == other.at
            && same_list(self.locals.as_slice(), other.locals.as_slice())
    }
}

/// Two states are the same key of a map exactly where they are equal.
impl PartialEq for TaskState {
    ghost eq = { same_task };

    ghost laws = { partial_equiv_from_equiv same_task_equivalence };

    fn eq(&self, other: &TaskState) -> bool {
        self.is_same(other)
    }
}

impl Eq for TaskState {
    ghost laws = { same_task_equivalence };
}

impl Hash for TaskState {
    ghost hash_input = { hashed_state ⟦<BodyId as Hash>⟧.hash_input ⟦<Value as Hash>⟧.hash_input };

    ghost respects_eq = { hashed_alike ⟦<BodyId as Hash>⟧.hash_input ⟦<Value as Hash>⟧.hash_input };

    fn hash<H: Hasher>(&self, state: &mut H) {
        self.kind.hash(state);
        self.at.hash(state);
        self.locals.as_slice().hash(state);
    }
}
