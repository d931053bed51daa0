ghost use Rattle.std.specs.Prelude.{◌≡◌, ◌≤◌, ◌<◌, ◌+◌, ◌+ℤ◌};
ghost use Rattle.std.specs.Int.RustNames.{unsigned_abs};
ghost use Rattle.effect_cells.specs.Sums.{IsWide, AreWide, both_sums, sum_limit};

/// The sum, which stays below 2^121.
pub(crate) fn sum(a: i128, b: i128) -> i128
    requires { IsWide (a +ℤ b) }
    ensures { result ≡ a +ℤ b }
{
    a + b
}

/// The sums of two pairs.
pub(crate) fn sum_both(a: &(i128, i128), b: &(i128, i128)) -> (i128, i128)
    requires { AreWide (both_sums a.now b.now) }
    ensures { result ≡ both_sums a.now b.now }
{
    (sum(a.0, b.0), sum(a.1, b.1))
}

/// The sum of two numbers whose magnitudes are together below 2^120.
pub(crate) fn sum_within(a: i128, b: i128) -> i128
    requires { unsigned_abs a + unsigned_abs b < sum_limit }
    ensures value { result ≡ a +ℤ b }
    ensures small { unsigned_abs result ≤ unsigned_abs a + unsigned_abs b }
{
    a + b
}
