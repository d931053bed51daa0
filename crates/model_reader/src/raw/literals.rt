use crate::raw::names::RawName;
use aerie_base::{Number, OutOfMemory, Place};
use readers::{RawData, copy_both};
use std::alloc::Global;

/// What a literal means.
#[derive(Drop)]
pub enum RawLiteralKind {
    /// A whole number with its sign; a duration is the number of its microseconds.
    Number(Number),
    /// `true` or `false`
    Truth(bool),
    /// `kind.variant`: a variant of an enumeration, by the names of both.
    Variant { kind: RawName, variant: RawName },
}

/// A literal, and the place of its first token, a `-` included.
#[derive(Drop)]
pub struct RawLiteral {
    pub at: Place,
    pub what: RawLiteralKind,
}

impl RawData for RawLiteralKind {
    fn copied(&self, alloc: Global) -> Result<RawLiteralKind, OutOfMemory> {
        match self {
            RawLiteralKind::Number(number) => Ok(RawLiteralKind::Number(*number)),
            RawLiteralKind::Truth(truth) => Ok(RawLiteralKind::Truth(*truth)),
            RawLiteralKind::Variant { kind, variant } => {
                let (kind, variant) = copy_both(alloc, kind, variant)?;
                Ok(RawLiteralKind::Variant { kind, variant })
            }
        }
    }
}

impl RawData for RawLiteral {
    fn copied(&self, alloc: Global) -> Result<RawLiteral, OutOfMemory> {
        let what = self.what.copied(alloc)?;
        Ok(RawLiteral { at: self.at, what })
    }
}
