use crate::effect_trait::EffectTrait;
use crate::kinds::CellKind;
use crate::sums::sum_both;
use aerie_base::Time;

/// The kind of cell that holds a volume, in millionths of a unit, and a rate, in units a second, by which the volume
/// rises each microsecond. Its effects add to both.
pub struct Accumulator;

impl EffectTrait for (i128, i128) {
    ghost use Rattle.std.specs.Prelude.{pos};
    ghost use Rattle.effect_cells.specs.Sums.{AreSmall, both_sums};
    ghost use Rattle.effect_cells.specs.SumLaws.{sums_associate, sums_commute, zeros_first, zeros_last};

    ghost nothing = { (pos 0, pos 0) };

    ghost in_turn = { both_sums };

    ghost beside = { both_sums };

    ghost is_small = { AreSmall };

    fn empty() -> (i128, i128) {
        (0, 0)
    }

    fn sequentially(prefix: &(i128, i128), suffix: &(i128, i128)) -> (i128, i128) {
        sum_both(prefix, suffix)
    }

    fn concurrently(left: &(i128, i128), right: &(i128, i128)) -> (i128, i128) {
        sum_both(left, right)
    }

    ghost in_turn_associative = { sums_associate };

    ghost nothing_in_turn = { zeros_first };

    ghost in_turn_nothing = { zeros_last };

    ghost beside_associative = { sums_associate };

    ghost beside_commutative = { sums_commute };

    ghost nothing_beside = { zeros_first };

    ghost beside_nothing = { zeros_last };
}

impl CellKind for Accumulator {
    ghost use Rattle.effect_cells.specs.Sums.{AreSmall, CanFlow, both_sums, flowed};
    ghost use Rattle.effect_cells.specs.SumLaws.{zeros_last, sums_in_turn, flowed_zero, flowed_sum};

    type State = (i128, i128);

    type Effect = (i128, i128);

    ghost after = { both_sums };

    ghost later = { flowed };

    ghost is_small = { AreSmall };

    ghost can_step = { CanFlow };

    fn apply(state: &(i128, i128), effect: &(i128, i128)) -> (i128, i128) {
        sum_both(state, effect)
    }

    fn step(state: &(i128, i128), dt: Time) -> (i128, i128) {
        (state.0 + state.1 * dt.get() as i128, state.1)
    }

    ghost after_nothing = { zeros_last };

    ghost after_in_turn = { sums_in_turn };

    ghost later_zero = { flowed_zero };

    ghost later_sum = { flowed_sum };
}
