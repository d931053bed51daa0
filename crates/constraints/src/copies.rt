//! Copies of rules.

ghost use Rattle.std.specs.Prelude.{◌≡◌, IfOk};

use crate::types::{Constraint, Reading, Rule, RuleSum, RuleTerm, Window};
use crate::violation::Violation;
use aerie_base::{Boxed, List, OutOfMemory, Path};
use std::alloc::Global;

impl Reading {
    /// An equal reading; a dataset is shared.
    pub fn copy(&self, alloc: Global) -> Result<Reading, OutOfMemory>
        ensures { IfOk result (λ copy. copy ≡ self.now) }
    {
        match self {
            Reading::Resource(number) => Ok(Reading::Resource(*number)),
            Reading::Series { name, series } => {
                let series = series.share()?;
                let name = name.copy(alloc)?;
                Ok(Reading::Series { name, series })
            }
        }
    }
}

impl RuleTerm {
    /// An equal term.
    pub fn copy(&self, alloc: Global) -> Result<RuleTerm, OutOfMemory>
        ensures { IfOk result (λ copy. copy ≡ self.now) }
    {
        Ok(RuleTerm {
            coefficient: self.coefficient,
            resource: self.resource.copy(alloc)?,
        })
    }
}

/// Equal terms.
fn copy_terms(alloc: Global, terms: &[RuleTerm]) -> Result<List<RuleTerm>, OutOfMemory>
    ensures { IfOk result (λ copies. copies ≡ terms.now) }
{
    let mut copies = List::with_capacity(alloc, terms.len())?;
    for term in terms {
        copies.push(term.copy(alloc)?)?;
    }
    Ok(copies)
}

impl RuleSum {
    /// An equal sum.
    pub fn copy(&self, alloc: Global) -> Result<RuleSum, OutOfMemory>
        ensures { IfOk result (λ copy. copy ≡ self.now) }
    {
        let terms = copy_terms(alloc, self.terms.as_slice())?;
        Ok(RuleSum {
            terms,
            constant: self.constant,
        })
    }
}

impl Window {
    /// An equal window.
    pub fn copy(&self, alloc: Global) -> Result<Window, OutOfMemory>
        ensures { IfOk result (λ copy. copy ≡ self.now) }
    {
        match self {
            Window::Literal(truth) => Ok(Window::Literal(*truth)),
            Window::And(left, right) => {
                let left = Boxed::new(alloc, left.get().copy(alloc)?)?;
                let right = Boxed::new(alloc, right.get().copy(alloc)?)?;
                Ok(Window::And(left, right))
            }
            Window::Or(left, right) => {
                let left = Boxed::new(alloc, left.get().copy(alloc)?)?;
                let right = Boxed::new(alloc, right.get().copy(alloc)?)?;
                Ok(Window::Or(left, right))
            }
            Window::Not(part) => Ok(Window::Not(Boxed::new(alloc, part.get().copy(alloc)?)?)),
            Window::During(kind) => Ok(Window::During(*kind)),
            Window::DuringBound => Ok(Window::DuringBound),
            Window::Shift { of, start, end } => Ok(Window::Shift {
                of: Boxed::new(alloc, of.get().copy(alloc)?)?,
                start: *start,
                end: *end,
            }),
            Window::Longer { of, least } => Ok(Window::Longer {
                of: Boxed::new(alloc, of.get().copy(alloc)?)?,
                least: *least,
            }),
            Window::Truth(reading) => Ok(Window::Truth(reading.copy(alloc)?)),
            Window::Same {
                resource,
                value,
                equal,
            } => Ok(Window::Same {
                resource: resource.copy(alloc)?,
                value: *value,
                equal: *equal,
            }),
            Window::Compare { left, how, right } => Ok(Window::Compare {
                left: left.copy(alloc)?,
                how: *how,
                right: right.copy(alloc)?,
            }),
        }
    }
}

impl Rule {
    /// An equal rule.
    pub fn copy(&self, alloc: Global) -> Result<Rule, OutOfMemory>
        ensures { IfOk result (λ copy. copy ≡ self.now) }
    {
        match self {
            Rule::Plain(window) => Ok(Rule::Plain(window.copy(alloc)?)),
            Rule::Each { kind, window } => Ok(Rule::Each {
                kind: *kind,
                window: window.copy(alloc)?,
            }),
            Rule::Forbid(one, other) => Ok(Rule::Forbid(*one, *other)),
        }
    }
}

impl Constraint {
    /// An equal constraint.
    pub fn copy(&self, alloc: Global) -> Result<Constraint, OutOfMemory>
        ensures { IfOk result (λ copy. copy ≡ self.now) }
    {
        let name = self.name.copy(alloc)?;
        let rule = self.rule.copy(alloc)?;
        Ok(Constraint { name, rule })
    }
}

/// An equal path, where there is one.
fn copy_path(alloc: Global, path: &Option<Path>) -> Result<Option<Path>, OutOfMemory>
    ensures { IfOk result (λ copy. copy ≡ path.now) }
{
    match path {
        Some(path) => Ok(Some(path.copy(alloc)?)),
        None => Ok(None),
    }
}

impl Violation {
    /// An equal violation.
    pub fn copy(&self, alloc: Global) -> Result<Violation, OutOfMemory>
        ensures { IfOk result (λ copy. copy ≡ self.now) }
    {
        let path = copy_path(alloc, &self.path)?;
        let intervals = self.intervals.copy(alloc)?;
        Ok(Violation { path, intervals })
    }
}
