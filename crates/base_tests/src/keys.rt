//! What is seen of keys through their bounds alone.

use std::cmp::Ordering;
use std::hash::{FoldHasher, Hash, Hasher};

/// Whether one comes before the other.
pub(super) fn is_before<T: Ord>(one: &T, other: &T) -> bool {
    one.cmp(other) == Ordering::Less
}

/// A number from all that a value gives a hasher.
pub(super) fn digest<T: Hash>(value: &T) -> u64 {
    let mut hasher = FoldHasher::default();
    value.hash(&mut hasher);
    hasher.finish()
}
