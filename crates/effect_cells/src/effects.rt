ghost use Rattle.std.specs.Prelude.{◌≡◌, ◌≤◌, ◌<◌, ◌+◌};
ghost use Rattle.effect_cells.specs.Sums.{sum_limit};
ghost use Rattle.effect_cells.specs.Worth.{effect_in_turn, effect_beside, magnitude};

use crate::effect_trait::EffectTrait;
use crate::registers::Change;
use crate::sums::sum_within;
use aerie_base::{OutOfMemory, PlainData, Value};
use std::alloc::Global;

/// An effect on a cell of one of the three kinds.
#[derive(Clone, Copy, Debug, PartialEq, Eq, Hash)]
pub enum Effect {
    /// On a counter: what is added.
    Add(i128),
    /// On a register.
    Register(Change),
    /// On an accumulator.
    Flow {
        /// What is added to the volume, in millionths of a unit.
        volume: i128,
        /// What is added to the rate, in units a second.
        rate: i128,
    },
}

/// The state of a cell of one of the three kinds.
#[derive(Clone, Copy, Debug, PartialEq, Eq, Hash)]
pub enum CellState {
    /// The number of a counter.
    Counter(i128),
    /// A register.
    Register {
        /// Its value.
        value: Value,
        /// Whether concurrent effects conflicted on it since the value was set.
        conflicted: bool,
    },
    /// An accumulator.
    Volume {
        /// Its volume, in millionths of a unit.
        volume: i128,
        /// Its rate, in units a second, by which the volume rises each microsecond.
        rate: i128,
    },
}

impl PlainData for CellState {
    fn copied(&self, _alloc: Global) -> Result<CellState, OutOfMemory> {
        Ok(*self)
    }

    fn equals(&self, other: &CellState) -> bool {
        self == other
    }
}

/// Two effects on one cell, one after the other.
pub(crate) fn sequentially(prefix: &Effect, suffix: &Effect) -> Effect
    requires { magnitude prefix.now + magnitude suffix.now < sum_limit }
    ensures value { result ≡ effect_in_turn prefix.now suffix.now }
    ensures small { magnitude result ≤ magnitude prefix.now + magnitude suffix.now }
{
    match prefix {
        Effect::Add(a) => match suffix {
            Effect::Add(b) => Effect::Add(sum_within(*a, *b)),
            _ => *prefix,
        },
        Effect::Register(a) => match suffix {
            Effect::Register(b) => Effect::Register(Change::sequentially(a, b)),
            _ => *prefix,
        },
        Effect::Flow { volume: a, rate: r } => match suffix {
            Effect::Flow { volume: b, rate: s } => Effect::Flow {
                volume: sum_within(*a, *b),
                rate: sum_within(*r, *s),
            },
            _ => *prefix,
        },
    }
}

/// Two effects on one cell, neither before the other.
pub(crate) fn concurrently(left: &Effect, right: &Effect) -> Effect
    requires { magnitude left.now + magnitude right.now < sum_limit }
    ensures value { result ≡ effect_beside left.now right.now }
    ensures small { magnitude result ≤ magnitude left.now + magnitude right.now }
{
    match left {
        Effect::Add(a) => match right {
            Effect::Add(b) => Effect::Add(sum_within(*a, *b)),
            _ => *left,
        },
        Effect::Register(a) => match right {
            Effect::Register(b) => Effect::Register(Change::concurrently(a, b)),
            _ => *left,
        },
        Effect::Flow { volume: a, rate: r } => match right {
            Effect::Flow { volume: b, rate: s } => Effect::Flow {
                volume: sum_within(*a, *b),
                rate: sum_within(*r, *s),
            },
            _ => *left,
        },
    }
}
