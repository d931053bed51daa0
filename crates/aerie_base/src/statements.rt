ghost use Rattle.std.specs.Prelude.{◌≡◌, ◌↔◌, IsTrue, IfOk};
ghost use Rattle.aerie_base.specs.declared.statements.Stmt.{Let, Assign, Emit, Delay, WaitUntil, Spawn, Call, Return};

use crate::conditions::Cond;
use crate::containers::List;
use crate::expressions::Expr;
use crate::memory::OutOfMemory;
use crate::plain_data::{copy_list, same_list};
use std::alloc::Global;

/// What a statement does to a cell.
#[derive(Debug, Drop)]
pub enum Emission {
    /// Adds to a counter.
    Add(Expr),
    /// Sets a register.
    Set(Expr),
    /// Adds to the volume of an accumulator.
    Volume(Expr),
    /// Adds to the rate of an accumulator.
    Rate(Expr),
}

/// A statement of a body. Cells, activity types and slots are counted from 0.
#[derive(Debug, Drop)]
pub enum Stmt {
    /// `let`: the first value of a local.
    Let {
        /// The slot of the local.
        slot: u16,
        /// Its value.
        value: Expr,
    },
    /// `=`: another value of a local.
    Assign {
        /// The slot of the local.
        slot: u16,
        /// Its new value.
        value: Expr,
    },
    /// `+=` and `:=`: an effect on a cell.
    Emit {
        /// The cell.
        cell: u16,
        /// The effect.
        what: Emission,
    },
    /// `delay`, by so many microseconds.
    Delay(Expr),
    /// `wait until`
    WaitUntil(Cond),
    /// `spawn`: a child that the task does not wait for.
    Spawn {
        /// The child's activity type.
        kind: u16,
        /// Its arguments in the order of its parameters, defaults filled in.
        arguments: List<Expr>,
    },
    /// `call`: a child for whose end the task waits.
    Call {
        /// The child's activity type.
        kind: u16,
        /// Its arguments in the order of its parameters, defaults filled in.
        arguments: List<Expr>,
        /// The slot of the local that takes the child's result.
        into: Option<u16>,
    },
    /// `if`, with an empty second block where there is no `else`.
    If {
        /// A truth.
        test: Expr,
        /// The block where it is true.
        yes: List<Stmt>,
        /// The block where it is false.
        no: List<Stmt>,
    },
    /// `while`
    While {
        /// A truth, tested before each turn.
        test: Expr,
        /// The block of each turn.
        body: List<Stmt>,
    },
    /// `return`, with a value exactly in activities that have a result.
    Return(Option<Expr>),
}

impl Emission {
    /// An equal emission.
    pub fn copy(&self, alloc: Global) -> Result<Emission, OutOfMemory>
        ensures { IfOk result (λ copy. copy ≡ self.now) }
    {
        match self {
            Emission::Add(value) => Ok(Emission::Add(value.copy(alloc)?)),
            Emission::Set(value) => Ok(Emission::Set(value.copy(alloc)?)),
            Emission::Volume(value) => Ok(Emission::Volume(value.copy(alloc)?)),
            Emission::Rate(value) => Ok(Emission::Rate(value.copy(alloc)?)),
        }
    }

    /// Whether the two are the same emission.
    pub fn is_same(&self, other: &Emission) -> bool
        ensures { IsTrue result ↔ (self.now ≡ other.now) }
    {
        match (self, other) {
            (Emission::Add(value), Emission::Add(other_value)) => value.is_same(other_value),
            (Emission::Set(value), Emission::Set(other_value)) => value.is_same(other_value),
            (Emission::Volume(value), Emission::Volume(other_value)) => value.is_same(other_value),
            (Emission::Rate(value), Emission::Rate(other_value)) => value.is_same(other_value),
            _ => false,
        }
    }
}

impl Stmt {
    /// An equal statement.
    #[cycle(copy)]
    pub fn copy(&self, alloc: Global) -> Result<Stmt, OutOfMemory>
        ensures { IfOk result (λ copy. copy ≡ self.now) }
    {
        match self {
            Stmt::Let { slot, value } => Ok(Stmt::Let {
                slot: *slot,
                value: value.copy(alloc)?,
            }),
            Stmt::Assign { slot, value } => Ok(Stmt::Assign {
                slot: *slot,
                value: value.copy(alloc)?,
            }),
            Stmt::Emit { cell, what } => Ok(Stmt::Emit {
                cell: *cell,
                what: what.copy(alloc)?,
            }),
            Stmt::Delay(length) => Ok(Stmt::Delay(length.copy(alloc)?)),
            Stmt::WaitUntil(cond) => Ok(Stmt::WaitUntil(cond.copy(alloc)?)),
            Stmt::Spawn { kind, arguments } => Ok(Stmt::Spawn {
                kind: *kind,
                arguments: copy_list(alloc, arguments)?,
            }),
            Stmt::Call {
                kind,
                arguments,
                into,
            } => copy_call(alloc, *kind, arguments, *into),
            Stmt::If { test, yes, no } => Ok(Stmt::If {
                test: test.copy(alloc)?,
                yes: copy_block(alloc, yes)?,
                no: copy_block(alloc, no)?,
            }),
            Stmt::While { test, body } => Ok(Stmt::While {
                test: test.copy(alloc)?,
                body: copy_block(alloc, body)?,
            }),
            Stmt::Return(None) => Ok(Stmt::Return(None)),
            Stmt::Return(Some(value)) => Ok(Stmt::Return(Some(value.copy(alloc)?))),
        }
    }

    /// Whether the two are the same statement.
    #[cycle(same)]
    pub fn is_same(&self, other: &Stmt) -> bool
        ensures { IsTrue result ↔ (self.now ≡ other.now) }
    {
        match self {
            Stmt::Let { slot, value } => other.is_let(*slot, value),
            Stmt::Assign { slot, value } => other.is_assign(*slot, value),
            Stmt::Emit { cell, what } => other.is_emit(*cell, what),
            Stmt::Delay(length) => other.is_delay(length),
            Stmt::WaitUntil(cond) => other.is_wait(cond),
            Stmt::Spawn { kind, arguments } => other.is_spawn(*kind, arguments),
            Stmt::Call {
                kind,
                arguments,
                into,
            } => other.is_call(*kind, arguments, *into),
            Stmt::If { test, yes, no } => match other {
                Stmt::If {
                    test: other_test,
                    yes: other_yes,
                    no: other_no,
                } => {
                    test.is_same(other_test)
                        && same_block(yes.as_slice(), other_yes.as_slice())
                        && same_block(no.as_slice(), other_no.as_slice())
                }
                _ => false,
            },
            Stmt::While { test, body } => match other {
                Stmt::While {
                    test: other_test,
                    body: other_body,
                } => test.is_same(other_test) && same_block(body.as_slice(), other_body.as_slice()),
                _ => false,
            },
            Stmt::Return(value) => other.is_return(value),
        }
    }

    fn is_let(&self, slot: u16, value: &Expr) -> bool
        ensures { IsTrue result ↔ (Let slot value.now ≡ self.now) }
    {
        match self {
            Stmt::Let {
                slot: own_slot,
                value: own_value,
            } => slot == *own_slot && value.is_same(own_value),
            _ => false,
        }
    }

    fn is_assign(&self, slot: u16, value: &Expr) -> bool
        ensures { IsTrue result ↔ (Assign slot value.now ≡ self.now) }
    {
        match self {
            Stmt::Assign {
                slot: own_slot,
                value: own_value,
            } => slot == *own_slot && value.is_same(own_value),
            _ => false,
        }
    }

    fn is_emit(&self, cell: u16, what: &Emission) -> bool
        ensures { IsTrue result ↔ (Emit cell what.now ≡ self.now) }
    {
        match self {
            Stmt::Emit {
                cell: own_cell,
                what: own_what,
            } => cell == *own_cell && what.is_same(own_what),
            _ => false,
        }
    }

    fn is_delay(&self, length: &Expr) -> bool
        ensures { IsTrue result ↔ (Delay length.now ≡ self.now) }
    {
        match self {
            Stmt::Delay(own_length) => length.is_same(own_length),
            _ => false,
        }
    }

    fn is_wait(&self, cond: &Cond) -> bool
        ensures { IsTrue result ↔ (WaitUntil cond.now ≡ self.now) }
    {
        match self {
            Stmt::WaitUntil(own_cond) => cond.is_same(own_cond),
            _ => false,
        }
    }

    fn is_spawn(&self, kind: u16, arguments: &List<Expr>) -> bool
        ensures { IsTrue result ↔ (Spawn kind arguments.now ≡ self.now) }
    {
        match self {
            Stmt::Spawn {
                kind: own_kind,
                arguments: own_arguments,
            } => kind == *own_kind && same_list(arguments.as_slice(), own_arguments.as_slice()),
            _ => false,
        }
    }

    fn is_call(&self, kind: u16, arguments: &List<Expr>, into: Option<u16>) -> bool
        ensures { IsTrue result ↔ (Call kind arguments.now into ≡ self.now) }
    {
        match self {
            Stmt::Call {
                kind: own_kind,
                arguments: own_arguments,
                into: own_into,
            } => {
                kind == *own_kind
                    && into == *own_into
                    && same_list(arguments.as_slice(), own_arguments.as_slice())
            }
            _ => false,
        }
    }

    fn is_return(&self, value: &Option<Expr>) -> bool
        ensures { IsTrue result ↔ (Return value.now ≡ self.now) }
    {
        match (value, self) {
            (None, Stmt::Return(None)) => true,
            (Some(value), Stmt::Return(Some(own_value))) => value.is_same(own_value),
            _ => false,
        }
    }
}

/// An equal `call`.
fn copy_call(
    alloc: Global,
    kind: u16,
    arguments: &List<Expr>,
    into: Option<u16>,
) -> Result<Stmt, OutOfMemory>
    ensures { IfOk result (λ copy. copy ≡ Call kind arguments.now into) }
{
    Ok(Stmt::Call {
        kind,
        arguments: copy_list(alloc, arguments)?,
        into,
    })
}

/// An equal block.
#[cycle(copy)]
pub fn copy_block(alloc: Global, block: &List<Stmt>) -> Result<List<Stmt>, OutOfMemory>
    ensures { IfOk result (λ copies. copies ≡ block.now) }
{
    let mut copies = List::new(alloc);
    for stmt in block.as_slice() {
        copies.push(stmt.copy(alloc)?)?;
    }
    Ok(copies)
}

/// Whether the two blocks are the same: as long, with the same statement at each place.
#[cycle(same)]
pub fn same_block(block: &[Stmt], other: &[Stmt]) -> bool
    ensures { IsTrue result ↔ (block.now ≡ other.now) }
{
    if block.len() != other.len() {
        return false;
    }
    for at in 0..block.len() {
        if !block[at].is_same(&other[at]) {
            return false;
        }
    }
    true
}
