//! Windows for which a span changes nothing outside of its own times.

ghost use Rattle.std.specs.Prelude.{◌≡◌};
ghost use Rattle.constraints.specs.Evaluating.{marks_by_fold};
ghost use Rattle.constraints.specs.Local.{is_local};

use crate::types::Window;

/// Whether a span changes nothing outside of its own times.
pub(crate) fn is_local(window: &Window) -> bool
    ensures { result ≡ is_local window.now }
{
    marks(window).1
}

/// Whether the window speaks of the span that the rule is judged for, and whether it does so under no `shift` and no
/// `longer`.
pub(crate) fn marks(window: &Window) -> (bool, bool)
    ensures { result ≡ marks_by_fold window.now }
{
    match window {
        Window::DuringBound => (true, true),
        Window::And(left, right) | Window::Or(left, right) => {
            let left = marks(left.get());
            let right = marks(right.get());
            (left.0 || right.0, left.1 && right.1)
        }
        Window::Not(part) => marks(part.get()),
        Window::Shift { of, .. } | Window::Longer { of, .. } => {
            let part = marks(of.get());
            (part.0, !part.0)
        }
        Window::Literal(_)
        | Window::During(_)
        | Window::Truth(_)
        | Window::Same { .. }
        | Window::Compare { .. } => (false, true),
    }
}
