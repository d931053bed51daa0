//! Windows of a rule for each span of a type, made ready for all spans.

ghost use Rattle.std.specs.Prelude.{◌≡◌, false, IsTrue, IfOk};
ghost use Rattle.constraints.specs.Evaluating.{is_window_by_fold, marks_by_fold};
ghost use Rattle.constraints.specs.OfModel.{is_window};
ghost use Rattle.constraints.specs.OverSources.{HoldsAsFolded, HoldsAsWindow};
ghost use Rattle.constraints.specs.Sources.{AreSources};
ghost use Rattle.constraints.specs.SpanWindows.{is_below};

use crate::evaluation::holding;
use crate::local::marks;
use crate::offsets::Offset;
use crate::sources::Sources;
use crate::span_windows::SpanWindow;
use crate::types::Window;
use aerie_base::{Boxed, OutOfMemory};
use std::alloc::Global;

/// A window with those of its parts evaluated that do not speak of the span, each once for all spans.
pub(crate) fn for_spans(
    alloc: Global,
    sources: &Sources,
    window: &Window,
) -> Result<SpanWindow, OutOfMemory>
    requires sources { AreSources sources.now }
    requires window { IsTrue (is_window sources.now.model.now window.now) }
    ensures below { IfOk result (λ made. IsTrue (is_below sources.now.run.now.reach made)) }
    ensures holds { IfOk result (HoldsAsWindow sources.now window.now) }
{
    for_spans_by_fold(alloc, sources, window)
}

/// A window that does not speak of the span, evaluated.
fn evaluated(alloc: Global, sources: &Sources, window: &Window) -> Result<SpanWindow, OutOfMemory>
    requires sources { AreSources sources.now }
    requires window { IsTrue (is_window_by_fold sources.now.model.now window.now) }
    requires silent { (marks_by_fold window.now).0 ≡ false }
    ensures below { IfOk result (λ made. IsTrue (is_below sources.now.run.now.reach made)) }
    ensures holds { IfOk result (HoldsAsFolded sources.now window.now) }
{
    let times = holding(alloc, sources, window, &None)?;
    Ok(SpanWindow::Times(times))
}

/// The same over the fold, which is the form for a proof of the recursion.
fn for_spans_by_fold(
    alloc: Global,
    sources: &Sources,
    window: &Window,
) -> Result<SpanWindow, OutOfMemory>
    requires sources { AreSources sources.now }
    requires window { IsTrue (is_window_by_fold sources.now.model.now window.now) }
    ensures below { IfOk result (λ made. IsTrue (is_below sources.now.run.now.reach made)) }
    ensures holds { IfOk result (HoldsAsFolded sources.now window.now) }
{
    if !marks(window).0 {
        return evaluated(alloc, sources, window);
    }
    match window {
        Window::DuringBound => Ok(SpanWindow::Lasting),
        Window::And(left, right) => {
            let left = for_spans_by_fold(alloc, sources, left.get())?;
            let right = for_spans_by_fold(alloc, sources, right.get())?;
            let one = Boxed::new(alloc, left)?;
            let other = Boxed::new(alloc, right)?;
            Ok(SpanWindow::And(one, other))
        }
        Window::Or(left, right) => {
            let left = for_spans_by_fold(alloc, sources, left.get())?;
            let right = for_spans_by_fold(alloc, sources, right.get())?;
            let one = Boxed::new(alloc, left)?;
            let other = Boxed::new(alloc, right)?;
            Ok(SpanWindow::Or(one, other))
        }
        Window::Not(part) => {
            let part = for_spans_by_fold(alloc, sources, part.get())?;
            let inner = Boxed::new(alloc, part)?;
            Ok(SpanWindow::Not(inner))
        }
        Window::Shift { of, start, end } => {
            let part = for_spans_by_fold(alloc, sources, of.get())?;
            let first = Offset::new(*start);
            let last = Offset::new(*end);
            let inner = Boxed::new(alloc, part)?;
            Ok(SpanWindow::Shift {
                of: inner,
                start: first,
                end: last,
            })
        }
        Window::Longer { of, least } => {
            let part = for_spans_by_fold(alloc, sources, of.get())?;
            let inner = Boxed::new(alloc, part)?;
            Ok(SpanWindow::Longer {
                of: inner,
                least: *least,
            })
        }
        Window::Literal(_)
        | Window::During(_)
        | Window::Truth(_)
        | Window::Same { .. }
        | Window::Compare { .. } => evaluated(alloc, sources, window),
    }
}
