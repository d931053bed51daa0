/// What a statement that begins with a name does to what the name stands for.
#[derive(Clone, Copy, Debug)]
pub enum AssignmentOperator {
    /// `=`: a local takes another value.
    Assign,
    /// `+=`: a counter is added to.
    Add,
    /// `:=`: a register is set.
    Put,
    /// `.volume +=`: the volume of an accumulator is added to.
    AddVolume,
    /// `.rate +=`: the rate of an accumulator is added to.
    AddRate,
}
