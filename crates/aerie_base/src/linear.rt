ghost use Rattle.std.specs.Prelude.{◌≡◌, ◌↔◌, ◌≤◌, ◌*◌, ◌*ℤ◌, IsTrue, IfOk};
ghost use Rattle.std.specs.Int.RustNames.{unsigned_abs};
ghost use Rattle.aerie_base.specs.Ranges.{number_limit};

use crate::containers::List;
use crate::memory::OutOfMemory;
use crate::operands::Operand;
use crate::plain_data::{copy_list, same_list};
use std::alloc::Global;

/// A part of a linear form.
#[derive(Clone, Copy, Debug, PartialEq, Eq)]
pub struct Term {
    /// What the operand is multiplied by, from -10^6 to 10^6.
    pub coefficient: i64,
    /// A whole number: a local, a counter, a register, a volume or a rate.
    pub operand: Operand,
}

/// A linear form: a sum of terms and a constant.
#[derive(Debug, Drop)]
pub struct Linear {
    /// At most 16 terms.
    pub terms: List<Term>,
    /// What is added to the terms.
    pub constant: i128,
}

impl Linear {
    /// An equal form.
    pub fn copy(&self, alloc: Global) -> Result<Linear, OutOfMemory>
        ensures { IfOk result (λ copy. copy ≡ self.now) }
    {
        Ok(Linear {
            terms: copy_list(alloc, &self.terms)?,
            constant: self.constant,
        })
    }

    /// Whether the two are the same form.
    pub fn is_same(&self, other: &Linear) -> bool
        ensures { IsTrue result ↔ (self.now ≡ other.now) }
    {
        self.constant == other.constant && same_list(self.terms.as_slice(), other.terms.as_slice())
    }
}

/// A number multiplied by the coefficient of a term.
#[tactic(auto, using(crate::specs::Products::product_within))]
pub fn product(coefficient: i128, number: i128) -> i128
    requires coefficient { unsigned_abs coefficient ≤ 1_000_000 }
    requires number { unsigned_abs number ≤ number_limit }
    ensures value { result ≡ coefficient *ℤ number }
    ensures small { unsigned_abs result ≤ 1_000_000 * unsigned_abs number }
{
    coefficient * number
}
