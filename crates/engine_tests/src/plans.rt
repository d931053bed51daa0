//! Directives of the model that is tried.

use aerie_base::{Anchor, Edge};
use test_worlds::Planned;

/// A directive without an argument.
pub(crate) fn bare(start: i64, kind: &'static str) -> Planned {
    Planned {
        start,
        kind,
        argument: None,
        anchor: None,
    }
}

/// `Bump(by)`.
pub(crate) fn bump(start: i64, by: i64) -> Planned {
    Planned {
        start,
        kind: "Bump",
        argument: Some(("by", by)),
        anchor: None,
    }
}

/// `Bump(by)` so long after an edge of another directive.
pub(crate) fn bump_after(to: u32, edge: Edge, start: i64, by: i64) -> Planned {
    Planned {
        start,
        kind: "Bump",
        argument: Some(("by", by)),
        anchor: Some(Anchor { to, edge }),
    }
}

/// `Put(value)`.
pub(crate) fn put(start: i64, value: i64) -> Planned {
    Planned {
        start,
        kind: "Put",
        argument: Some(("value", value)),
        anchor: None,
    }
}

/// `Div(by)`.
pub(crate) fn divide(start: i64, by: i64) -> Planned {
    Planned {
        start,
        kind: "Div",
        argument: Some(("by", by)),
        anchor: None,
    }
}
