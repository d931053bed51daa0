//! When a number that moves at a constant rate comes to have another sign.

ghost use Rattle.std.specs.Prelude.{◌≡◌, ◌≤◌, ◌<◌, ◌+◌, ◌-◌, ◌/◌, ◌^◌, unsigned_abs};
ghost use Rattle.wait_solver.specs.Lines.{IsWithin};
ghost use Rattle.wait_solver.specs.Changes.{until_reached, until_change};
ghost use Rattle.wait_solver.specs.Outlooks.{IsSoon};

use crate::lines::Line;

/// The first microsecond at which a number that is so far from 0 has reached or passed it, if it comes so much nearer each
/// microsecond.
fn until_reached(away: u128, nearer: u128) -> u128
    requires away { 0 < away }
    requires nearer { 0 < nearer }
    requires small { away ≤ 2 ^ 116 }
    ensures value { result ≡ until_reached away nearer }
    ensures later { 0 < result }
    ensures small { result ≤ 2 ^ 117 }
{
    (away - 1) / nearer + 1
}

/// How many microseconds later the number first has another sign than now, where it ever does.
pub(crate) fn until_change(line: Line) -> Option<u128>
    requires { IsWithin (2 ^ 116) (2 ^ 65) line }
    ensures value { result ≡ until_change line }
    ensures soon { IsSoon result }
{
    if line.value > 0 {
        if line.rate < 0 {
            Some(until_reached(line.value.unsigned_abs(), line.rate.unsigned_abs()))
        } else {
            None
        }
    } else if line.value < 0 {
        if line.rate > 0 {
            Some(until_reached(line.value.unsigned_abs(), line.rate.unsigned_abs()))
        } else {
            None
        }
    } else if line.rate < 0 {
        Some(1)
    } else if line.rate > 0 {
        Some(1)
    } else {
        None
    }
}
