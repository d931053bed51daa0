ghost use Rattle.std.specs.Prelude.{◌≡◌, ◌↔◌, ◌<◌, IsTrue, IfOk, IfSome, option_and_then, slice_get, length, refl};
ghost use Rattle.aerie_base.specs.plans.OfModel.{with_id, Rise, IsIdAt, IsAnchorAt};

use crate::containers::List;
use crate::memory::OutOfMemory;
use crate::numbers::Time;
use crate::plain_data::{copy_list, same_list};
use crate::values::Value;
use std::alloc::Global;

/// Which edge of a directive's span another one is anchored to.
#[derive(Clone, Copy, Debug, PartialEq, Eq)]
pub enum Edge {
    /// Where it begins.
    Start,
    /// Where it and all of its children have ended.
    End,
}

/// What a directive's start is counted from.
#[derive(Clone, Copy, Debug, PartialEq, Eq)]
pub struct Anchor {
    /// The id of the other directive.
    pub to: u32,
    /// Which edge of its span.
    pub edge: Edge,
}

/// When a directive starts.
#[derive(Clone, Copy, Debug, PartialEq, Eq)]
pub struct When {
    /// The time after the anchor, or after the plan's start where there is none.
    pub start: Time,
    /// What the start is counted from.
    pub anchor: Option<Anchor>,
}

/// An activity that the plan starts.
#[derive(Debug, Drop)]
pub struct Directive {
    /// Its number in the plan, from 1; no other directive of the branch has or had it.
    pub id: u32,
    /// The time after the anchor, or after the plan's start where there is none.
    pub start: Time,
    /// What the start is counted from.
    pub anchor: Option<Anchor>,
    /// The activity type, counted from 0 in the order of the model.
    pub kind: u16,
    /// A value for each parameter, in their order.
    pub arguments: List<Value>,
}

/// A plan: directives over a duration.
#[derive(Debug, Drop)]
pub struct Plan {
    /// The place of its model among the models of the session, from 0.
    pub model: u16,
    /// How long it lasts, at least 1 microsecond.
    pub duration: Time,
    /// The id that the next new directive gets.
    pub next_id: u32,
    /// At most 65,536 directives, in order of id.
    pub directives: List<Directive>,
}

impl Directive {
    /// An equal directive.
    pub fn copy(&self, alloc: Global) -> Result<Directive, OutOfMemory>
        ensures { IfOk result (λ copy. copy ≡ self.now) }
    {
        Ok(Directive {
            id: self.id,
            start: self.start,
            anchor: self.anchor,
            kind: self.kind,
            arguments: copy_list(alloc, &self.arguments)?,
        })
    }

    /// Whether the two are the same directive.
    pub fn is_same(&self, other: &Directive) -> bool
        ensures { IsTrue result ↔ (self.now ≡ other.now) }
    {
        self.id == other.id
            && self.start == other.start
            && self.anchor == other.anchor
            && self.kind == other.kind
            && same_list(self.arguments.as_slice(), other.arguments.as_slice())
    }
}

/// A directive of a plan, or of one that is being merged, whose ids may be wider. Contracts see a list of either as directives.
pub trait HasIds: Sized {
    ghost use Rattle.std.specs.Prelude.{◌≡◌, ℕ, List as Items, length};
    ghost use Rattle.aerie_base.specs.declared.plans.Directive.{Directive as Shown};

    /// The directives that they are seen as.
    ghost as_directives: { Items Self → Items Shown };
    /// As many.
    ghost as_many: { (all : Items Self) → length (as_directives all) ≡ length all };

    /// The id of the one at a place.
    fn id_at(directives: &[Self], at: usize) -> u64
        requires { at < length directives.now }
        ensures { IsIdAt (as_directives directives.now) at result };

    /// The id to which the one at a place is anchored.
    fn anchor_at(directives: &[Self], at: usize) -> Option<u64>
        requires { at < length directives.now }
        ensures { IsAnchorAt (as_directives directives.now) at result };
}

impl HasIds for Directive {
    ghost as_directives = { λ directives. directives };

    ghost as_many = { λ directives. refl };

    fn id_at(directives: &[Directive], at: usize) -> u64 {
        u64::from(directives[at].id)
    }

    fn anchor_at(directives: &[Directive], at: usize) -> Option<u64> {
        match directives[at].anchor {
            Some(anchor) => Some(u64::from(anchor.to)),
            None => None,
        }
    }
}

/// The place of the directive with an id among some whose ids rise, by a search that halves what is left.
pub fn position_of_id<D: HasIds>(directives: &[D], id: u64) -> Option<usize>
    requires rising { Rise (D.as_directives directives.now) }
    ensures found { option_and_then (slice_get (D.as_directives directives.now)) result
        ≡ with_id (D.as_directives directives.now) id }
    ensures within { IfSome result (λ at. at < length directives.now) }
{
    let mut from = 0;
    let mut to = directives.len();
    while from < to {
        let middle = from + (to - from) / 2;
        let here = D::id_at(directives, middle);
        if here == id {
            return Some(middle);
        }
        if here < id {
            from = middle + 1;
        } else {
            to = middle;
        }
    }
    None
}

/// The place of the directive of a plan with an id.
pub fn position_in_plan(directives: &[Directive], id: u32) -> Option<usize>
    requires rising { Rise directives.now }
    ensures found { option_and_then (slice_get directives.now) result ≡ with_id directives.now id }
    ensures within { IfSome result (λ at. at < length directives.now) }
{
    position_of_id(directives, u64::from(id))
}

impl Plan {
    /// An equal plan.
    pub fn copy(&self, alloc: Global) -> Result<Plan, OutOfMemory>
        ensures { IfOk result (λ copy. copy ≡ self.now) }
    {
        Ok(Plan {
            model: self.model,
            duration: self.duration,
            next_id: self.next_id,
            directives: copy_list(alloc, &self.directives)?,
        })
    }

    /// Whether the two are the same plan.
    pub fn is_same(&self, other: &Plan) -> bool
        ensures { IsTrue result ↔ (self.now ≡ other.now) }
    {
        self.model == other.model
            && self.duration == other.duration
            && self.next_id == other.next_id
            && same_list(self.directives.as_slice(), other.directives.as_slice())
    }
}
