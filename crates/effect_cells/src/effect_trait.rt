ghost use Rattle.std.specs.Prelude.{◌≡◌};

/// Effects on one cell. They happen one after another, where one task has them, or concurrently, where two tasks have
/// them between which nothing decides the order.
///
/// The laws are proved by each implementation, and generic code may use them: one after another and concurrently are
/// both associative, concurrently is commutative besides, and the empty effect changes nothing in either.
pub trait EffectTrait: Sized {
    /// The effect that changes nothing.
    ghost nothing: { Self };

    /// One effect and then another.
    ghost in_turn: { Self → Self → Self };

    /// Two effects concurrently.
    ghost beside: { Self → Self → Self };

    /// Its sums are below 2^120.
    ghost is_small: { Self → Type 0 };

    /// The effect that changes nothing.
    fn empty() -> Self
        ensures { result ≡ nothing };

    /// The effect of `prefix` and then `suffix`.
    fn sequentially(prefix: &Self, suffix: &Self) -> Self
        requires { is_small (in_turn prefix.now suffix.now) }
        ensures { result ≡ in_turn prefix.now suffix.now };

    /// The effect of both, neither before the other.
    fn concurrently(left: &Self, right: &Self) -> Self
        requires { is_small (beside left.now right.now) }
        ensures { result ≡ beside left.now right.now };

    ghost in_turn_associative: { (a b c : Self) → in_turn (in_turn a b) c ≡ in_turn a (in_turn b c) };

    ghost nothing_in_turn: { (a : Self) → in_turn nothing a ≡ a };

    ghost in_turn_nothing: { (a : Self) → in_turn a nothing ≡ a };

    ghost beside_associative: { (a b c : Self) → beside (beside a b) c ≡ beside a (beside b c) };

    ghost beside_commutative: { (a b : Self) → beside a b ≡ beside b a };

    ghost nothing_beside: { (a : Self) → beside nothing a ≡ a };

    ghost beside_nothing: { (a : Self) → beside a nothing ≡ a };
}
