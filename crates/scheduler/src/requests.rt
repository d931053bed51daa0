//! What a goal is scheduled by.

use aerie_base::{Model, Plan, Shared};
use constraints::Constraint;
use goals::Goal;

/// A goal, and what its trials are judged by.
#[derive(Drop)]
pub(crate) struct GoalRequest<'a> {
    /// The model.
    pub(crate) model: &'a Model,
    /// The model's constraints, of which the goal names some after `keeping`.
    pub(crate) constraints: &'a [Constraint],
    /// The goal.
    pub(crate) goal: &'a Goal,
}

/// What a schedule is made of.
#[derive(Drop)]
pub(crate) struct ScheduleRequest<'a> {
    /// The model.
    pub(crate) model: &'a Model,
    /// The plan that is added to.
    pub(crate) plan: &'a Shared<Plan>,
    /// The goals, one after another.
    pub(crate) goals: &'a [Goal],
    /// The model's constraints.
    pub(crate) constraints: &'a [Constraint],
}
