ghost use Rattle.std.specs.Prelude.{◌≡◌, ◌<◌, ◌+◌, length, None, IfOk};
ghost use Rattle.effect_cells.specs.Sums.{sum_limit};
ghost use Rattle.effect_cells.specs.Worth.{magnitude, magnitude_if_any};
ghost use Rattle.effect_cells.specs.Gathering.{gathered_with as front_gathered, is_nothing as does_nothing, AreBlank};
ghost use Rattle.effect_cells.specs.TouchedCells.{Touches};

use crate::effects::{CellState, Effect, concurrently, sequentially};
use crate::registers::Change;
use aerie_base::OutOfMemory;
use std::alloc::Global;

/// What a batch is going to do to a cell.
#[derive(Clone, Copy, Debug)]
pub(crate) struct Pending {
    /// The effect, where there is one.
    pub(crate) effect: Option<Effect>,
    /// When it was gathered first, by the clock of the walk over the tree.
    gathered_at: u64,
}

/// Nothing is pending on so many cells.
pub(crate) fn nothing_pending(
    alloc: Global,
    states: &[CellState],
) -> Result<Vec<Pending>, OutOfMemory>
    ensures blank { IfOk result (λ pending. AreBlank pending.items) }
    ensures same { IfOk result (λ pending. length pending.items ≡ length states.now) }
{
    let mut pending = Vec::with_capacity(alloc, states.len())?;
    for _state in states {
        let effect: Option<Effect> = None;
        pending.push(Pending {
            effect,
            gathered_at: 0,
        })?;
    }
    Ok(pending)
}

/// Nothing is pending.
pub(crate) fn nothing() -> Pending
    ensures { result.effect ≡ None }
{
    Pending {
        effect: None,
        gathered_at: 0,
    }
}

/// Nothing is pending any more on the cells that were touched.
pub(crate) fn clear(pending: &mut [Pending], touched: &[u16])
    requires { Touches touched.now pending.old }
    ensures same { length pending.new ≡ length pending.old }
    ensures blank { AreBlank pending.new }
{
    for cell in touched {
        let at = usize::from(*cell);
        pending[at] = nothing();
    }
}

/// The effect, in a tree that was entered when the clock showed `entered_at`, in front of what is pending on its cell: what
/// was gathered since then follows it, what was gathered earlier is beside it.
pub(crate) fn gathered_with(one: &Pending, effect: &Effect, entered_at: u64, now: u64) -> Pending
    requires { magnitude effect.now + magnitude_if_any one.now.effect < sum_limit }
    ensures { result ≡ front_gathered one.now effect.now entered_at now }
{
    match &one.effect {
        None => Pending {
            effect: Some(*effect),
            gathered_at: now,
        },
        Some(there) => {
            if is_nothing(there) {
                Pending {
                    effect: Some(*effect),
                    gathered_at: now,
                }
            } else if entered_at <= one.gathered_at {
                Pending {
                    effect: Some(sequentially(effect, there)),
                    gathered_at: one.gathered_at,
                }
            } else {
                Pending {
                    effect: Some(concurrently(effect, there)),
                    gathered_at: one.gathered_at,
                }
            }
        }
    }
}

/// Whether the effect does nothing to a register.
fn is_nothing(effect: &Effect) -> bool
    ensures { result ≡ does_nothing effect.now }
{
    match effect {
        Effect::Register(Change::Nothing) => true,
        _ => false,
    }
}
