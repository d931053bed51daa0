//! What a condition answers at a time, and how long at least it answers so.

ghost use Rattle.std.specs.Prelude.{◌≡◌, ◌<◌, None};
ghost use Rattle.aerie_base.specs.TimeOrder.{earlier, later};
ghost use Rattle.wait_solver.specs.Outlooks.{of_negation, of_conjunction, of_disjunction, IsSoon};

/// What a condition answers at a time, and for how many microseconds at least it answers the same from then on.
#[derive(Clone, Copy, Debug)]
pub(crate) struct Outlook {
    /// Whether it holds.
    pub(crate) holds: bool,
    /// How long it stays so at least; for good where there is none.
    pub(crate) stays: Option<u128>,
}

/// The lesser of the two, where there are both.
fn earlier(a: Option<u128>, b: Option<u128>) -> Option<u128>
    requires a { IsSoon a }
    requires b { IsSoon b }
    ensures value { result ≡ earlier a b }
    ensures soon { IsSoon result }
{
    match (a, b) {
        (None, _) => b,
        (_, None) => a,
        (Some(a), Some(b)) => Some(a.min(b)),
    }
}

/// The greater of the two, and none where one of them is none.
fn later(a: Option<u128>, b: Option<u128>) -> Option<u128>
    requires a { IsSoon a }
    requires b { IsSoon b }
    ensures value { result ≡ later a b }
    ensures soon { IsSoon result }
{
    match (a, b) {
        (None, _) => None,
        (_, None) => None,
        (Some(a), Some(b)) => Some(a.max(b)),
    }
}

/// An answer that stands for good.
pub(crate) fn standing(holds: bool) -> Outlook
    ensures holds { result.holds ≡ holds }
    ensures stays { result.stays ≡ None }
{
    let stays: Option<u128> = None;
    Outlook { holds, stays }
}

/// The opposite answer, for as long.
pub(crate) fn negated(part: Outlook) -> Outlook
    requires { IsSoon part.stays }
    ensures value { result ≡ of_negation part }
    ensures soon { IsSoon result.stays }
{
    Outlook {
        holds: !part.holds,
        stays: part.stays,
    }
}

/// What `&&` makes of two: where both hold it holds until the first of them ends, and where neither does it does not
/// until the last of them ends.
pub(crate) fn of_both(left: Outlook, right: Outlook) -> Outlook
    requires left { IsSoon left.stays }
    requires right { IsSoon right.stays }
    ensures value { result ≡ of_conjunction left right }
    ensures soon { IsSoon result.stays }
{
    match (left.holds, right.holds) {
        (true, true) => Outlook {
            holds: true,
            stays: earlier(left.stays, right.stays),
        },
        (true, false) => right,
        (false, true) => left,
        (false, false) => Outlook {
            holds: false,
            stays: later(left.stays, right.stays),
        },
    }
}

/// What `||` makes of two: the opposite of what `&&` makes of their opposites.
pub(crate) fn of_either(left: Outlook, right: Outlook) -> Outlook
    requires left { IsSoon left.stays }
    requires right { IsSoon right.stays }
    ensures value { result ≡ of_disjunction left right }
    ensures soon { IsSoon result.stays }
{
    negated(of_both(negated(left), negated(right)))
}
