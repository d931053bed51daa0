ghost use Rattle.std.specs.Prelude.{◌≡◌};
ghost use Rattle.aerie_base.specs.expressions.Readings.{cell_of};

/// What is read of a cell; cells are counted from 0 in the order of the model.
#[derive(Clone, Copy, Debug, PartialEq, Eq)]
pub enum CellRead {
    /// The number of a counter.
    Counter(u16),
    /// The value of a register.
    Register(u16),
    /// Whether a register is conflicted.
    Conflicted(u16),
    /// The volume of an accumulator, in millionths of a unit.
    Volume(u16),
    /// The rate of an accumulator, in units a second, which are millionths of a unit a microsecond.
    Rate(u16),
}

impl CellRead {
    /// The cell that is read, counted from 0 in the order of the model.
    pub fn cell(&self) -> u16
        ensures { result ≡ cell_of self.now }
    {
        match self {
            CellRead::Counter(cell)
            | CellRead::Register(cell)
            | CellRead::Conflicted(cell)
            | CellRead::Volume(cell)
            | CellRead::Rate(cell) => *cell,
        }
    }
}

/// What an expression or a condition names.
#[derive(Clone, Copy, Debug, PartialEq, Eq)]
pub enum Operand {
    /// A read of a cell.
    Read(CellRead),
    /// The local in a slot, counted from 0, parameters first.
    Local(u16),
}
