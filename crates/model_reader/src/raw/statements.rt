ghost use Rattle.std.specs.Prelude.{◌≡◌, IfOk};

use crate::raw::expressions::RawExpr;
use crate::raw::invokes::RawInvoke;
use crate::raw::names::RawName;
use aerie_base::{List, OutOfMemory, Place};
use readers::{RawData, copy_both};
use std::alloc::Global;

/// A statement, and the place of its first token.
#[cycle(statement)]
#[derive(Drop)]
pub struct RawStmt {
    pub at: Place,
    pub what: RawStmtKind,
}

/// What a statement is. Each name is that of a local or a cell.
#[cycle(statement)]
#[derive(Drop)]
pub enum RawStmtKind {
    /// `let`: the first value of a local.
    Let {
        name: RawName,
        value: RawExpr,
    },
    /// `let` with `call`: a local that takes the result of a child, for whose end the task waits.
    LetCall {
        name: RawName,
        call: RawInvoke,
    },
    /// `=`: another value of a local.
    Assign {
        name: RawName,
        value: RawExpr,
    },
    /// `+=`: adds to a counter.
    Add {
        name: RawName,
        value: RawExpr,
    },
    /// `:=`: sets a register.
    Put {
        name: RawName,
        value: RawExpr,
    },
    /// `.volume +=`: adds to the volume of an accumulator, in millionths of a unit.
    AddVolume {
        name: RawName,
        value: RawExpr,
    },
    /// `.rate +=`: adds to the rate of an accumulator, in units a second.
    AddRate {
        name: RawName,
        value: RawExpr,
    },
    /// `delay`, by so many microseconds.
    Delay(RawExpr),
    /// `wait until`
    WaitUntil(RawExpr),
    /// `spawn`: a child that the task does not wait for.
    Spawn(RawInvoke),
    /// `call`: a child for whose end the task waits.
    Call(RawInvoke),
    /// `if`, with the blocks where the test is true and where it is false; the second is empty where there is no `else`.
    If {
        test: RawExpr,
        yes: List<RawStmt>,
        no: List<RawStmt>,
    },
    /// `while`, with the test before each iteration and the block of each iteration.
    While {
        test: RawExpr,
        body: List<RawStmt>,
    },
    /// `return`, with or without a value.
    Return(Option<RawExpr>),
}

impl RawStmt {
    /// An equal statement at the same place.
    #[cycle(copy)]
    pub fn copy(&self, alloc: Global) -> Result<RawStmt, OutOfMemory>
        ensures { IfOk result (λ copy. copy ≡ self.now) }
    {
        let what = self.what.copy(alloc)?;
        Ok(RawStmt { at: self.at, what })
    }
}

impl RawStmtKind {
    /// An equal statement.
    #[cycle(copy)]
    pub fn copy(&self, alloc: Global) -> Result<RawStmtKind, OutOfMemory>
        ensures { IfOk result (λ copy. copy ≡ self.now) }
    {
        match self {
            RawStmtKind::Let { name, value } => {
                let (name, value) = copy_both(alloc, name, value)?;
                Ok(RawStmtKind::Let { name, value })
            }
            RawStmtKind::LetCall { name, call } => {
                let (name, call) = copy_both(alloc, name, call)?;
                Ok(RawStmtKind::LetCall { name, call })
            }
            RawStmtKind::Assign { name, value } => {
                let (name, value) = copy_both(alloc, name, value)?;
                Ok(RawStmtKind::Assign { name, value })
            }
            RawStmtKind::Add { name, value } => {
                let (name, value) = copy_both(alloc, name, value)?;
                Ok(RawStmtKind::Add { name, value })
            }
            RawStmtKind::Put { name, value } => {
                let (name, value) = copy_both(alloc, name, value)?;
                Ok(RawStmtKind::Put { name, value })
            }
            RawStmtKind::AddVolume { name, value } => {
                let (name, value) = copy_both(alloc, name, value)?;
                Ok(RawStmtKind::AddVolume { name, value })
            }
            RawStmtKind::AddRate { name, value } => {
                let (name, value) = copy_both(alloc, name, value)?;
                Ok(RawStmtKind::AddRate { name, value })
            }
            RawStmtKind::Delay(length) => Ok(RawStmtKind::Delay(length.copy(alloc)?)),
            RawStmtKind::WaitUntil(cond) => Ok(RawStmtKind::WaitUntil(cond.copy(alloc)?)),
            RawStmtKind::Spawn(child) => Ok(RawStmtKind::Spawn(child.copied(alloc)?)),
            RawStmtKind::Call(child) => Ok(RawStmtKind::Call(child.copied(alloc)?)),
            RawStmtKind::If { test, yes, no } => Ok(RawStmtKind::If {
                test: test.copy(alloc)?,
                yes: copy_block(alloc, yes)?,
                no: copy_block(alloc, no)?,
            }),
            RawStmtKind::While { test, body } => Ok(RawStmtKind::While {
                test: test.copy(alloc)?,
                body: copy_block(alloc, body)?,
            }),
            RawStmtKind::Return(value) => Ok(RawStmtKind::Return(RawData::copied(value, alloc)?)),
        }
    }
}

/// An equal block.
#[cycle(copy)]
fn copy_block(alloc: Global, block: &List<RawStmt>) -> Result<List<RawStmt>, OutOfMemory>
    ensures { IfOk result (λ copies. copies ≡ block.now) }
{
    let mut copies = List::new(alloc);
    for stmt in block.as_slice() {
        copies.push(stmt.copy(alloc)?)?;
    }
    Ok(copies)
}

impl RawData for RawStmt {
    fn copied(&self, alloc: Global) -> Result<RawStmt, OutOfMemory> {
        self.copy(alloc)
    }
}
