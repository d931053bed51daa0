use crate::effect_trait::EffectTrait;
use crate::kinds::CellKind;
use aerie_base::Time;

/// The kind of cell that holds a whole number, to which its effects add.
pub struct Counter;

impl EffectTrait for i128 {
    ghost use Rattle.std.specs.Prelude.{◌+ℤ◌, pos};
    ghost use Rattle.std.proofs.Common.{arith};
    ghost use Rattle.std.proofs.lemmas.Int.{ints};
    ghost use Rattle.effect_cells.specs.Sums.{IsSmall};

    ghost nothing = { pos 0 };

    ghost in_turn = { λ a b. a +ℤ b };

    ghost beside = { λ a b. a +ℤ b };

    ghost is_small = { IsSmall };

    fn empty() -> i128 {
        0
    }

    fn sequentially(prefix: &i128, suffix: &i128) -> i128 {
        *prefix + *suffix
    }

    fn concurrently(left: &i128, right: &i128) -> i128 {
        *left + *right
    }

    ghost in_turn_associative = { λ a b c. Prim.omega (arith, ints) };

    ghost nothing_in_turn = { λ a. Prim.omega (arith, ints) };

    ghost in_turn_nothing = { λ a. Prim.omega (arith, ints) };

    ghost beside_associative = { λ a b c. Prim.omega (arith, ints) };

    ghost beside_commutative = { λ a b. Prim.omega (arith, ints) };

    ghost nothing_beside = { λ a. Prim.omega (arith, ints) };

    ghost beside_nothing = { λ a. Prim.omega (arith, ints) };
}

impl CellKind for Counter {
    ghost use Rattle.std.specs.Prelude.{◌+ℤ◌, refl};
    ghost use Rattle.std.proofs.Common.{arith};
    ghost use Rattle.std.proofs.lemmas.Int.{ints};
    ghost use Rattle.effect_cells.specs.Sums.{IsSmall};

    type State = i128;

    type Effect = i128;

    ghost after = { λ state added. state +ℤ added };

    ghost later = { λ state dt. state };

    ghost is_small = { IsSmall };

    ghost can_step = { λ state dt. Unit {0} };

    fn apply(state: &i128, effect: &i128) -> i128 {
        *state + *effect
    }

    fn step(state: &i128, _dt: Time) -> i128 {
        *state
    }

    ghost after_nothing = { λ state. Prim.omega (arith, ints) };

    ghost after_in_turn = { λ state first second. Prim.omega (arith, ints) };

    ghost later_zero = { λ state. refl };

    ghost later_sum = { λ state a b. refl };
}
