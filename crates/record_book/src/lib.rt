//! Steps that were run, stored so that the same step need not be run again: chapters of them, and books in which a step is found
//! by its state and by the cells that it read.
#![tactic(auto)]

mod books;
mod chapters;
mod keyed_items;
pub mod laws;
mod probes;
mod step_index;
mod stored_steps;
mod ways;

pub use books::{BOOK_LIMIT, Book};
pub use chapters::{CHAPTER_LIMIT, Chapter};
