//! Flat code: a body of nested statements as one list of instructions, in which the code at each place stands for the
//! statements that are left there.
#![tactic(auto)]

mod codes;
mod compiling;
mod emitting;
mod instructions;
mod models;

pub use codes::Code;
pub use compiling::compile;
pub use instructions::Instruction;
pub use models::compile_all;
