//! Owners on the heap that contracts see as what they hold. Two values of a type made of them are equal in a contract
//! exactly when they mean the same, wherever they lie and however much room they keep.

mod boxed;
mod list;
mod shared;

pub use boxed::Boxed;
pub use list::List;
pub use shared::Shared;
