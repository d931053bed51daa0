//! What checks of texts have in common: what is wrong, where it stands and what of it is told first; names that may stand but
//! once; types that are compared.
#![tactic(auto)]

mod diagnostic;
mod kinds;
pub mod laws;
mod names;

pub use diagnostic::{Diagnostic, Ranked, is_place_before, note, note_unless};
pub use kinds::{same_kind, short};
pub use names::{NameSet, note_repeated};
