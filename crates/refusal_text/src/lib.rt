//! Why a session, the words of a call, or a command is refused, and how that is printed: the type that tells a refused session
//! with its line, and the errors of edits, migrations, merges and datasets, each as the value of JSON that a definition gives.
#![tactic(auto)]

mod edits;
mod named;
mod refusals;

pub use edits::AsRefusal;
pub use named::write_named;
pub use refusals::{Refusal, refusal_line};
