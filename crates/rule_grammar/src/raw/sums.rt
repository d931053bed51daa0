use aerie_base::{Number, Place};
use model_reader::RawName;

/// A term of a sum: a number, or a number times a resource or dataset.
#[derive(Drop)]
pub struct RawTerm {
    /// The place of its first token. The sign before a term is no part of it.
    pub at: Place,
    /// The number, or the coefficient, with the sign before the term: 1 or -1 where a name stands alone. A duration is the
    /// number of its microseconds.
    pub number: Number,
    /// What the number is multiplied by; a term without it is a number.
    pub resource: Option<RawName>,
}
