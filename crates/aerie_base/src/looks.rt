ghost use Rattle.std.specs.Prelude.{◌≡◌, IsSome};
ghost use Rattle.aerie_base.specs.expressions.Readings.{reading, cell_of, also, AreReadings};

use crate::faults::Fault;
use crate::operands::CellRead;
use crate::values::Value;

/// What cells are read through. It has some reads, each with a type and with a value of that type, where a whole number
/// may be out of its range: a counter, a volume or a rate is a whole number, and a conflict flag a truth.
pub trait Look {
    ghost use Rattle.std.specs.Prelude.{Bool, List, Option};
    ghost use Rattle.aerie_base.specs.declared.operands.CellRead.{CellRead};
    ghost use Rattle.aerie_base.specs.declared.values.Kind.{Kind};
    ghost use Rattle.aerie_base.specs.declared.values.Value.{Value};

    /// The type of each read that there is.
    ghost kinds: { Self → CellRead → Option Kind };
    /// The value of each read that there is.
    ghost values: { Self → CellRead → Value };
    /// For each cell, whether it was read so far.
    ghost read_flags: { Self → List Bool };
    /// What no look changes.
    ghost Unchanged: { Type 0 };

    ghost unchanged: { Self → Unchanged };

    /// What is read: the value, or `Fault::Range` exactly where it is a number out of its range. It takes no memory.
    fn look(&mut self, read: CellRead) -> Result<Value, Fault>
        requires { IsSome (kinds self.old read) }
        ensures value { result ≡ reading read (values self.old read) }
        ensures read_flags { read_flags self.new ≡ also (cell_of read) (read_flags self.old) }
        ensures same_kinds { kinds self.new ≡ kinds self.old }
        ensures same_values { values self.new ≡ values self.old }
        ensures unchanged { unchanged self.new ≡ unchanged self.old };

    /// Each value is of its type, and each type one that such a read may have.
    ghost readings: { (self : Self) → AreReadings (kinds self) (values self) };
}
