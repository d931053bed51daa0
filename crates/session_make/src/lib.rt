//! The generated session: the text of a session with as many directives as are wanted, to try and to measure the program.
#![tactic(auto)]

mod making;
mod texts;

pub use making::make;
