ghost use Rattle.std.specs.Prelude.{◌≡◌, IfOk, IsSome, Some};
ghost use Rattle.aerie_base.specs.expressions.Arithmetic.{value_kind};
ghost use Rattle.aerie_base.specs.expressions.Evaluation.{evaluated, evaluated_by_fold, of_operand};
ghost use Rattle.aerie_base.specs.expressions.Faults.{MayFault};
ghost use Rattle.aerie_base.specs.expressions.Typing.{kind_of, kind_by_fold, operand_kind, slot_kinds};

use crate::arithmetic::{combined, decided, denied, negated};
use crate::expressions::Expr;
use crate::faults::Fault;
use crate::looks::Look;
use crate::operands::Operand;
use crate::values::Value;

/// The value of an expression, or its first fault in the order of evaluation: left side, right side, operation, where
/// `&&` and `||` evaluate the right side only if the left does not decide. `Fault::Range` comes exactly where a result,
/// or a counter, volume or rate that is read, is out of its range, and `Fault::Divide` exactly where a divisor is 0.
/// The expression is well typed for the locals and for the reads that `cells` has. It takes no memory.
pub fn eval<K: Look>(expr: &Expr, locals: &[Value], cells: &mut K) -> Result<Value, Fault>
    requires well_typed { IsSome (kind_of expr.now (slot_kinds locals.now) (K.kinds cells.old)) }
    ensures outcome { result ≡ (evaluated expr.now locals.now (K.values cells.old) (K.read_flags cells.old)).0 }
    ensures read_flags { K.read_flags cells.new ≡ (evaluated expr.now locals.now (K.values cells.old) (K.read_flags cells.old)).1 }
    ensures same_kinds { K.kinds cells.new ≡ K.kinds cells.old }
    ensures same_values { K.values cells.new ≡ K.values cells.old }
    ensures unchanged { K.unchanged cells.new ≡ K.unchanged cells.old }
    ensures typed { IfOk result (λ value. kind_of expr.now (slot_kinds locals.now) (K.kinds cells.old) ≡ Some (value_kind value)) }
    ensures faults { MayFault result }
{
    eval_by_fold(expr, locals, cells)
}

/// The same over the fold, which is the form for a proof of the recursion.
fn eval_by_fold<K: Look>(expr: &Expr, locals: &[Value], cells: &mut K) -> Result<Value, Fault>
    requires { IsSome (kind_by_fold expr.now (slot_kinds locals.now) (K.kinds cells.old)) }
    ensures outcome { result ≡ (evaluated_by_fold expr.now locals.now (K.values cells.old) (K.read_flags cells.old)).0 }
    ensures read_flags { K.read_flags cells.new ≡ (evaluated_by_fold expr.now locals.now (K.values cells.old) (K.read_flags cells.old)).1 }
    ensures same_kinds { K.kinds cells.new ≡ K.kinds cells.old }
    ensures same_values { K.values cells.new ≡ K.values cells.old }
    ensures unchanged { K.unchanged cells.new ≡ K.unchanged cells.old }
{
    match expr {
        Expr::Literal(value) => Ok(*value),
        Expr::Operand(operand) => operand_value(*operand, locals, cells),
        Expr::Not(inner) => denied(&eval_by_fold(inner.get(), locals, cells)?),
        Expr::Negate(inner) => negated(&eval_by_fold(inner.get(), locals, cells)?),
        Expr::Binary(operator, left, right) => {
            let left = eval_by_fold(left.get(), locals, cells)?;
            if let Some(value) = decided(*operator, &left) {
                return Ok(value);
            }
            let right = eval_by_fold(right.get(), locals, cells)?;
            combined(*operator, &left, &right)
        }
    }
}

/// The value of a local, or of what is read of a cell.
#[tactic(auto, using(crate::proofs::Slots::slot_there))]
fn operand_value<K: Look>(operand: Operand, locals: &[Value], cells: &mut K) -> Result<Value, Fault>
    requires { IsSome (operand_kind (slot_kinds locals.now) (K.kinds cells.old) operand) }
    ensures outcome { result ≡ (of_operand operand locals.now (K.values cells.old) (K.read_flags cells.old)).0 }
    ensures read_flags { K.read_flags cells.new ≡ (of_operand operand locals.now (K.values cells.old) (K.read_flags cells.old)).1 }
    ensures same_kinds { K.kinds cells.new ≡ K.kinds cells.old }
    ensures same_values { K.values cells.new ≡ K.values cells.old }
    ensures unchanged { K.unchanged cells.new ≡ K.unchanged cells.old }
{
    match operand {
        Operand::Local(slot) => Ok(locals[usize::from(slot)]),
        Operand::Read(read) => cells.look(read),
    }
}
