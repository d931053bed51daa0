//! Items of lists.

ghost use Rattle.std.specs.Prelude.{◌≡◌, option_copied, slice_get};

/// The item at an index, counted from 0, or `None` past the last.
pub fn item_at<T>(items: &[T], at: usize) -> Option<&T>
    ensures { option_copied result ≡ slice_get items.now at }
{
    items.get(at)
}
