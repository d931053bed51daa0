//! Where nothing besides a value has to be known to write it.

/// What types of other crates are written by where nothing besides the value itself has to be known.
#[derive(Drop)]
pub struct Alone;
