ghost use Rattle.std.specs.Prelude.{◌≡◌, ◌+◌, ℕ};

use crate::effect_trait::EffectTrait;
use aerie_base::Time;

/// A kind of cell: what its state is, what its effects do to it, and how it evolves by itself.
///
/// The laws are proved by each implementation, and generic code may use them: to apply effects one after another is to
/// apply each in turn, and a step over a time is one over a part of it and then one over the rest.
pub trait CellKind {
    /// What the cell holds.
    type State;

    /// What tasks do to it.
    type Effect: EffectTrait;

    ghost use Rattle.std.specs.Prelude.{ℕ};

    /// The state after an effect.
    ghost after: { Self.State → Self.Effect → Self.State };

    /// The state so many microseconds later, where there is no effect.
    ghost later: { Self.State → ℕ → Self.State };

    /// Its sums are below 2^120.
    ghost is_small: { Self.State → Type 0 };

    /// What time adds over so many microseconds, and its sums with it, are below 2^120.
    ghost can_step: { Self.State → ℕ → Type 0 };

    /// The state after the effect.
    fn apply(state: &Self::State, effect: &Self::Effect) -> Self::State
        requires { is_small (after state.now effect.now) }
        ensures { result ≡ after state.now effect.now };

    /// The state a time `dt` later, where there is no effect.
    fn step(state: &Self::State, dt: Time) -> Self::State
        requires { can_step state.now dt }
        ensures { result ≡ later state.now dt };

    ghost after_nothing: { (state : Self.State) → after state Self.Effect.nothing ≡ state };

    ghost after_in_turn: { (state : Self.State) (first second : Self.Effect) → after state (Self.Effect.in_turn first second) ≡ after (after state first) second };

    ghost later_zero: { (state : Self.State) → later state 0 ≡ state };

    ghost later_sum: { (state : Self.State) (a b : ℕ) → later state (a + b) ≡ later (later state a) b };
}
