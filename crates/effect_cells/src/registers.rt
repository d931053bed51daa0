use crate::effect_trait::EffectTrait;
use crate::kinds::CellKind;
use aerie_base::{Time, Value};

/// The kind of cell that holds a value of a type and whether concurrent effects conflicted on it.
pub struct Register;

/// An effect on a register.
#[derive(Clone, Copy, Debug, PartialEq, Eq, Hash)]
pub enum Change {
    /// Leaves the register as it is.
    Nothing,
    /// Sets the value, without a conflict.
    Set(Value),
    /// Marks a conflict, and keeps the value.
    Mark,
    /// Sets the value and marks a conflict after that.
    SetMark(Value),
}

impl EffectTrait for Change {
    ghost use Rattle.effect_cells.specs.declared.registers.Change.TheVariants.{Nothing};
    ghost use Rattle.effect_cells.specs.Changes.{change_in_turn, change_beside};
    ghost use Rattle.effect_cells.specs.ChangeLaws.{nothing_first, nothing_last, turns_associate, nothing_left, nothing_right, sides_commute, sides_associate};

    ghost nothing = { Nothing };

    ghost in_turn = { change_in_turn };

    ghost beside = { change_beside };

    ghost is_small = { λ change. Unit {0} };

    fn empty() -> Change {
        Change::Nothing
    }

    fn sequentially(prefix: &Change, suffix: &Change) -> Change {
        match suffix {
            Change::Nothing => *prefix,
            Change::Set(value) => Change::Set(*value),
            Change::SetMark(value) => Change::SetMark(*value),
            Change::Mark => match prefix {
                Change::Nothing | Change::Mark => Change::Mark,
                Change::Set(value) | Change::SetMark(value) => Change::SetMark(*value),
            },
        }
    }

    fn concurrently(left: &Change, right: &Change) -> Change {
        match left {
            Change::Nothing => *right,
            _ => match right {
                Change::Nothing => *left,
                _ => Change::Mark,
            },
        }
    }

    ghost in_turn_associative = { turns_associate };

    ghost nothing_in_turn = { nothing_first };

    ghost in_turn_nothing = { nothing_last };

    ghost beside_associative = { sides_associate };

    ghost beside_commutative = { sides_commute };

    ghost nothing_beside = { nothing_left };

    ghost beside_nothing = { nothing_right };
}

impl CellKind for Register {
    ghost use Rattle.std.specs.Prelude.{refl};
    ghost use Rattle.effect_cells.specs.Changes.{changed};
    ghost use Rattle.effect_cells.specs.ChangeLaws.{changed_in_turn};

    type State = (Value, bool);

    type Effect = Change;

    ghost after = { changed };

    ghost later = { λ state dt. state };

    ghost is_small = { λ state. Unit {0} };

    ghost can_step = { λ state dt. Unit {0} };

    fn apply(state: &(Value, bool), effect: &Change) -> (Value, bool) {
        match effect {
            Change::Nothing => *state,
            Change::Set(value) => (*value, false),
            Change::Mark => (state.0, true),
            Change::SetMark(value) => (*value, true),
        }
    }

    fn step(state: &(Value, bool), _dt: Time) -> (Value, bool) {
        *state
    }

    ghost after_nothing = { λ state. refl };

    ghost after_in_turn = { changed_in_turn };

    ghost later_zero = { λ state. refl };

    ghost later_sum = { λ state a b. refl };
}
