ghost use Rattle.std.specs.Prelude.{◌≡◌};
ghost use Rattle.effect_cells.specs.ReadCells.{reads_operand, reads_side, reads_terms, also_read};
ghost use Rattle.effect_cells.specs.Touched.{flagged_from};

use crate::touching::flag;
use aerie_base::{Cond, Linear, Operand, Simple};

/// Flags the cells that the condition reads; the other flags stay, and a cell that has no flag is left out. It takes no
/// memory, and a time in the order of the condition's size.
pub fn flag_read(condition: &Cond, flags: &mut [bool])
    ensures { flags.new ≡ also_read condition.now flags.old }
{
    match condition {
        Cond::Literal(_) => {}
        Cond::Flag(operand) => flag_operand(*operand, flags),
        Cond::Same { left, right, .. } => {
            flag_side(left, flags);
            flag_side(right, flags);
        }
        Cond::Compare { left, right, .. } => {
            flag_terms(left, flags);
            flag_terms(right, flags);
        }
        Cond::Not(part) => flag_read(part.get(), flags),
        Cond::And(left, right) => {
            flag_read(left.get(), flags);
            flag_read(right.get(), flags);
        }
        Cond::Or(left, right) => {
            flag_read(left.get(), flags);
            flag_read(right.get(), flags);
        }
    }
}

/// Flags the cell of a read.
fn flag_operand(operand: Operand, flags: &mut [bool])
    ensures { flags.new ≡ flagged_from (reads_operand operand) 0 flags.old }
{
    match operand {
        Operand::Read(read) => flag(flags, usize::from(read.cell())),
        Operand::Local(_) => {}
    }
}

/// Flags the cell of a side of an equality.
fn flag_side(side: &Simple, flags: &mut [bool])
    ensures { flags.new ≡ flagged_from (reads_side side.now) 0 flags.old }
{
    match side {
        Simple::Literal(_) => {}
        Simple::Operand(operand) => flag_operand(*operand, flags),
    }
}

/// Flags the cells of a linear form.
fn flag_terms(form: &Linear, flags: &mut [bool])
    ensures { flags.new ≡ flagged_from (reads_terms form.now.terms) 0 flags.old }
{
    for term in form.terms.as_slice() {
        flag_operand(term.operand, flags);
    }
}
