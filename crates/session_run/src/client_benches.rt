//! The benches of all clients, who go in turn.

ghost use Rattle.std.specs.Prelude.{◌≡◌, ◌≤◌, IfOk, replicate};
ghost use Rattle.aerie_base.specs.Ranges.{step_limit};

use aerie_base::OutOfMemory;
use client_work::Benches;
use std::alloc::Global;

/// Benches for so many clients, each without any yet.
#[tactic(auto, using(crate::proofs::ClientBenches::one_more))]
pub(crate) fn client_benches(
    alloc: Global,
    count: usize,
    bound: u64,
    pieces: u32,
) -> Result<Vec<Benches>, OutOfMemory>
    requires { bound ≤ step_limit }
    ensures { IfOk result (λ benches. benches.items ≡ replicate count bound) }
{
    let mut benches = Vec::with_capacity(alloc, count)?;
    for number in 0..count {
        benches.push(Benches::new(alloc, bound, pieces))?;
    }
    Ok(benches)
}
