//! Sets of whole times in a span that begins at 0.
#![tactic(auto)]

mod begun;
mod crossing;
mod ends;
mod joining;
mod segments;
mod windows;

pub use begun::{Begins, last_begun};
pub use segments::{Segment, end_of};
pub use windows::Windows;
