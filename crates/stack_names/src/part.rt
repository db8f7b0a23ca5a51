//! Parts of lists.

ghost use Rattle.std.specs.Prelude.{◌≡◌, ◌≤◌, length, slice_range};

/// The values from one number on to another.
#[inline]
pub(crate) fn part<T>(values: &[T], start: usize, end: usize) -> &[T]
    requires order { start ≤ end }
    requires within { end ≤ length values.now }
    ensures { result.now ≡ slice_range values.now start end }
{
    &values[start..end]
}
