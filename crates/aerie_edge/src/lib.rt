//! The outside world of the program: where its text comes from, where its answers go, and where the ends of its
//! simulations may be held. Each is a trait whose clauses say what a caller may rely on, with plain implementations:
//! in memory, in memory without any fault, and over std's readers and writers.
#![tactic(auto)]

mod front;
mod gate;
mod hold_until;
mod interrupts;
mod memory_sink;
mod memory_source;
mod open;
mod sink;
mod source;
mod std_sink;
mod std_source;
mod sure_sink;
mod sure_source;

pub use gate::{Gate, Point};
pub use hold_until::HoldUntil;
pub use memory_sink::MemorySink;
pub use memory_source::MemorySource;
pub use open::Open;
pub use sink::{Sink, WriteFailed};
pub use source::{ReadFailed, Source};
pub use std_sink::StdSink;
pub use std_source::StdSource;
pub use sure_sink::SureSink;
pub use sure_source::SureSource;
