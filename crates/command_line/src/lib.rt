//! The command line: what the words after the program's name ask for.
#![tactic(auto)]

mod invocation;
mod laws;
mod numbers;
mod parsing;
mod words;

pub use invocation::{Invocation, Mode};
pub use laws::{cut_words_are_lines, lines_are_cut, order_makes_no_difference};
pub use words::read_words;
