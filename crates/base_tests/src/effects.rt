//! Each trait of effects and cells used through its bound.

ghost use Rattle.std.specs.Prelude.{◌≡◌};

use aerie_base::{Time, Value};
use effect_cells::{CellKind, Change, Counter, EffectTrait, Register};
use std::test::Fail;

/// What two effects come to, one after the other and concurrently.
fn combined<E: EffectTrait + Drop>(first: &E, second: &E) -> (E, E)
    requires in_turn { E.is_small (E.in_turn first.now second.now) }
    requires beside { E.is_small (E.beside first.now second.now) }
    ensures in_turn { result.0 ≡ E.in_turn first.now second.now }
    ensures beside { result.1 ≡ E.beside first.now second.now }
{
    (
        E::sequentially(first, second),
        E::concurrently(first, second),
    )
}

/// A state after an effect and then a time.
fn applied_and_passed<K: CellKind>(state: &K::State, effect: &K::Effect, dt: Time) -> K::State
where
    K::State: Drop,
    requires small { K.is_small (K.after state.now effect.now) }
    requires step { K.can_step (K.after state.now effect.now) dt }
    ensures { result ≡ K.later (K.after state.now effect.now) dt }
{
    let state = K::apply(state, effect);
    K::step(&state, dt)
}

#[test]
fn combines_effects_of_each_kind(rt: HostRuntime) {
    assert_eq!(&rt; combined(&5i128, &-7i128), (-2, -2));
    assert_eq!(&rt;
        combined(&(1i128, 2i128), &(3i128, 4i128)),
        ((4, 6), (4, 6))
    );
    let set = Change::Set(Value::Truth(true));
    assert_eq!(&rt;
        combined(&set, &Change::Mark),
        (Change::SetMark(Value::Truth(true)), Change::Mark)
    );
    assert_eq!(&rt; combined(&set, &set), (set, Change::Mark));
}

#[test]
fn applies_and_passes_each_kind(rt: HostRuntime) -> Result<(), Fail> {
    let dt = Time::new(4).ok_or("no time")?;
    assert_eq!(&rt; applied_and_passed::<Counter>(&5, &3, dt), 8);
    let register = (Value::Truth(false), false);
    assert_eq!(&rt;
        applied_and_passed::<Register>(&register, &Change::Mark, dt),
        (Value::Truth(false), true)
    );
    Ok(())
}
