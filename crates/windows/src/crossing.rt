ghost use Rattle.std.specs.Prelude.{◌≡◌, ◌<◌, ◌^◌, ℤ, ◌*ℤ◌, unsigned_abs};
ghost use Rattle.std.specs.Ordering.{int_cmp};
ghost use Rattle.windows.specs.Crossing.{order_at, meets};

use aerie_base::Comparison;
use std::cmp::Ordering;

/// How a straight line through 0 compares with a number, by whole steps: in one order at all steps before `at`, in one
/// at `at` itself, and in one at all steps after it.
#[derive(Clone, Copy)]
pub(crate) struct Crossing {
    pub(crate) at: i128,
    pub(crate) before: Ordering,
    pub(crate) there: Ordering,
    pub(crate) after: Ordering,
}

/// How the line that rises by `rate` with each step compares with the number `away`.
pub(crate) fn cross(rate: i128, away: i128) -> Crossing
    requires { unsigned_abs away < 2 ^ 121 }
    ensures near { unsigned_abs result.at < 2 ^ 121 }
    ensures order { (step : ℤ) → int_cmp (rate *ℤ step) away ≡ order_at result step }
{
    if rate == 0 {
        let level = 0_i128.cmp(&away);
        return Crossing {
            at: 0,
            before: level,
            there: level,
            after: level,
        };
    }
    // at this step the line is short of the number by the remainder, or past it
    let at = away / rate;
    let there = 0_i128.cmp(&(away % rate));
    if rate > 0 {
        return Crossing {
            at,
            before: Ordering::Less,
            there,
            after: Ordering::Greater,
        };
    }
    Crossing {
        at,
        before: Ordering::Greater,
        there,
        after: Ordering::Less,
    }
}

/// Whether two numbers in this order are so compared.
pub(crate) fn meets(how: Comparison, order: Ordering) -> bool
    ensures { result ≡ meets how order }
{
    match how {
        Comparison::Equal => order.is_eq(),
        Comparison::Unequal => order.is_ne(),
        Comparison::Less => order.is_lt(),
        Comparison::AtMost => order.is_le(),
        Comparison::More => order.is_gt(),
        Comparison::AtLeast => order.is_ge(),
    }
}
