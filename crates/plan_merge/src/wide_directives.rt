//! Directives whose ids may be above those that a plan can hold.

ghost use Rattle.std.specs.Prelude.{◌≡◌, ◌↔◌, IsTrue, IfOk, refl};
ghost use Rattle.aerie_base.specs.declared.plans.Directive.{Directive as Shown};
ghost use Rattle.plan_merge.specs.Anchors.{shown_anchor};
ghost use Rattle.aerie_base.specs.plans.OfModel.{anchored_to};
ghost use Rattle.plan_merge.specs.Table.{same, IsSame};

use aerie_base::{
    Anchor, Directive, Edge, HasIds, List, OutOfMemory, Time, Value, copy_list, same_list,
};
use std::alloc::Global;
use std::marker::Model;

/// What a start is counted from, where the id of the other directive may be above those that a plan can hold.
#[derive(Clone, Copy, Debug, PartialEq, Eq, Drop)]
pub struct WideAnchor {
    /// The id of the other directive.
    pub to: u64,
    /// Which edge of its span.
    pub edge: Edge,
}

/// A directive of a plan that is being merged. Contracts see it as a directive.
#[derive(Debug, Drop)]
pub struct WideDirective {
    /// Its id in the merged plan.
    pub id: u64,
    /// The time after the anchor, or after the plan's start where there is none.
    pub start: Time,
    /// What the start is counted from.
    pub anchor: Option<WideAnchor>,
    /// The activity type.
    pub kind: u16,
    /// A value for each parameter.
    pub arguments: List<Value>,
}

impl Model for WideDirective {
    ghost use Rattle.aerie_base.specs.declared.plans.Directive.{Directive as Shown};
    ghost use Rattle.plan_merge.specs.Anchors.{shown_anchor};

    ghost Value = { Shown };

    ghost view = { λ n. record {
      id = n.id;
      start = n.start;
      anchor = shown_anchor n.anchor;
      kind = n.kind;
      arguments = n.arguments;
    } };
}

impl HasIds for WideDirective {
    ghost as_directives = { λ directives. directives };

    ghost as_many = { λ directives. refl };

    fn id_at(directives: &[WideDirective], at: usize) -> u64 {
        directives[at].id()
    }

    fn anchor_at(directives: &[WideDirective], at: usize) -> Option<u64> {
        directives[at].anchored_to()
    }
}

impl WideDirective {
    /// Its id.
    pub fn id(&self) -> u64
        ensures { result ≡ self.now.id }
    {
        self.id
    }

    /// The id to which it is anchored.
    pub fn anchored_to(&self) -> Option<u64>
        ensures { result ≡ anchored_to self.now }
    {
        match self.anchor {
            None => None,
            Some(anchor) => Some(anchor.to),
        }
    }

    /// An equal directive.
    pub fn copy(&self, alloc: Global) -> Result<WideDirective, OutOfMemory>
        ensures { IfOk result (λ copy. copy ≡ self.now) }
    {
        Ok(WideDirective {
            id: self.id,
            start: self.start,
            anchor: self.anchor,
            kind: self.kind,
            arguments: copy_list(alloc, &self.arguments)?,
        })
    }

    /// The directive of a plan, with its id.
    pub fn of(alloc: Global, directive: &Directive) -> Result<WideDirective, OutOfMemory>
        ensures { IfOk result (λ one. one ≡ directive.now) }
    {
        Ok(WideDirective {
            id: u64::from(directive.id),
            start: directive.start,
            anchor: widened(directive.anchor),
            kind: directive.kind,
            arguments: copy_list(alloc, &directive.arguments)?,
        })
    }

    /// Whether type, arguments, start and anchor are those of a plan's directive.
    fn has_parts_of(&self, other: &Directive) -> bool
        ensures { IsTrue result ↔ IsSame self.now other.now }
    {
        self.kind == other.kind
            && same_list(self.arguments.as_slice(), other.arguments.as_slice())
            && self.start == other.start
            && self.anchor == widened(other.anchor)
    }

    /// Whether type, arguments, start and anchor are those of a plan's directive.
    pub fn is_same(&self, other: &Directive) -> bool
        ensures { result ≡ same self.now other.now }
    {
        self.has_parts_of(other)
    }
}

/// The anchor of a plan's directive.
fn widened(anchor: Option<Anchor>) -> Option<WideAnchor>
    ensures { shown_anchor result ≡ anchor }
{
    match anchor {
        None => None,
        Some(anchor) => Some(WideAnchor {
            to: u64::from(anchor.to),
            edge: anchor.edge,
        }),
    }
}

/// Whether type, arguments, start and anchor of two directives are equal.
fn has_same_parts(directive: &Directive, other: &Directive) -> bool
    ensures { IsTrue result ↔ IsSame directive.now other.now }
{
    directive.kind == other.kind
        && same_list(directive.arguments.as_slice(), other.arguments.as_slice())
        && directive.start == other.start
        && directive.anchor == other.anchor
}

/// Whether type, arguments, start and anchor of two directives are equal.
pub fn same_directive(directive: &Directive, other: &Directive) -> bool
    ensures { result ≡ same directive.now other.now }
{
    has_same_parts(directive, other)
}
