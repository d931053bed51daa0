use aerie_base::{Expr, Stmt};

/// An instruction of flat code. Places are counted from 0.
#[derive(Debug, Drop)]
pub enum Instruction {
    /// Does a statement without blocks, never an `if` or a `while`, and goes on at the next place.
    Do(Stmt),
    /// Goes on at the next place where the test is true, and elsewhere where it is false.
    Test {
        /// A truth.
        test: Expr,
        /// The place where the run goes on if it is false.
        otherwise: u32,
    },
    /// Goes on at this place.
    Jump(u32),
    /// The end of the body.
    End,
}
