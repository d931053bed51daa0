//! Goals as they are once they were read for a model: activity types by their numbers.

ghost use Rattle.std.specs.Prelude.{◌≡◌, IfOk};

use aerie_base::{List, Name, OutOfMemory, Time, Value, copy_list};
use constraints::Window;
use std::alloc::Global;

/// The activity that a goal places.
#[derive(Debug, Drop)]
pub struct Template {
    /// Its type, counted from 0 in the order of the model.
    pub kind: u16,
    /// Its arguments, in the order of the parameters, defaults filled in.
    pub arguments: List<Value>,
}

impl Template {
    /// An equal template.
    pub fn copy(&self, alloc: Global) -> Result<Template, OutOfMemory>
        ensures { IfOk result (λ copy. copy ≡ self.now) }
    {
        let arguments = copy_list(alloc, &self.arguments)?;
        Ok(Template {
            kind: self.kind,
            arguments,
        })
    }
}

/// Beside what a coexistence goal wants an activity.
#[derive(Drop)]
pub enum GoalAnchor {
    /// Each start of a span of the activity type with this number, counted from 0 in the order of the model.
    Starts(u16),
    /// Each end of a span of the activity type with this number that has ended.
    Ends(u16),
    /// Each start of a maximal interval on which a window holds.
    Windows(Window),
}

impl GoalAnchor {
    /// An equal anchor.
    pub fn copy(&self, alloc: Global) -> Result<GoalAnchor, OutOfMemory>
        ensures { IfOk result (λ copy. copy ≡ self.now) }
    {
        match self {
            GoalAnchor::Starts(kind) => Ok(GoalAnchor::Starts(*kind)),
            GoalAnchor::Ends(kind) => Ok(GoalAnchor::Ends(*kind)),
            GoalAnchor::Windows(window) => Ok(GoalAnchor::Windows(window.copy(alloc)?)),
        }
    }
}

/// What a goal asks for.
#[derive(Drop)]
pub enum GoalKind {
    /// That matching spans start, one not long after the other.
    Recurrence {
        /// How much later than one point of time the next one may be, at least 1 microsecond.
        every: Time,
        /// The first point of time, in microseconds from the start of the plan. The starts from here on are points too.
        from: Time,
        /// The last point of time, later than the first. The starts before it are points too.
        to: Time,
    },
    /// That a matching span starts beside each anchor.
    Coexistence {
        /// The anchors.
        anchor: GoalAnchor,
        /// How long after an anchor the start is at the earliest, from -10^15 to 10^15 microseconds; before it where negative.
        from: i64,
        /// How long after an anchor the start is at the latest, no less than at the earliest, from -10^15 to 10^15 microseconds.
        to: i64,
    },
    /// That so many matching spans start within a range.
    Cardinality {
        /// How many, from 1 to 10,000.
        count: u32,
        /// From this time on, in microseconds from the start of the plan.
        from: Time,
        /// Before this time, which is later than the first.
        to: Time,
    },
}

impl GoalKind {
    /// An equal kind.
    pub fn copy(&self, alloc: Global) -> Result<GoalKind, OutOfMemory>
        ensures { IfOk result (λ copy. copy ≡ self.now) }
    {
        match self {
            GoalKind::Recurrence { every, from, to } => Ok(GoalKind::Recurrence {
                every: *every,
                from: *from,
                to: *to,
            }),
            GoalKind::Coexistence { anchor, from, to } => Ok(GoalKind::Coexistence {
                anchor: anchor.copy(alloc)?,
                from: *from,
                to: *to,
            }),
            GoalKind::Cardinality { count, from, to } => Ok(GoalKind::Cardinality {
                count: *count,
                from: *from,
                to: *to,
            }),
        }
    }
}

/// A goal: what a schedule is to reach by placing activities.
#[derive(Drop)]
pub struct Goal {
    /// The name, another for each goal of a model.
    pub name: Name,
    /// What is placed.
    pub template: Template,
    /// What is asked for.
    pub kind: GoalKind,
    /// The constraints that a placement may not violate, by name.
    pub keeping: List<Name>,
    /// Whether all placements are taken back where the goal is not reached.
    pub rollback: bool,
}

impl Goal {
    /// An equal goal.
    pub fn copy(&self, alloc: Global) -> Result<Goal, OutOfMemory>
        ensures { IfOk result (λ copy. copy ≡ self.now) }
    {
        let name = self.name.copy(alloc)?;
        let template = self.template.copy(alloc)?;
        let kind = self.kind.copy(alloc)?;
        let keeping = copy_list(alloc, &self.keeping)?;
        Ok(Goal {
            name,
            template,
            kind,
            keeping,
            rollback: self.rollback,
        })
    }
}
