//! The last of numbers that rise, between two bounds.

ghost use Rattle.std.specs.Prelude.{◌≤◌, ◌<◌, ℕ, MatchOption, length, slice_index_or};
ghost use Rattle.std.specs.List.{AllPairs};
ghost use Rattle.single_entry.specs.Last.{HasNoneOf, IsLastOf};

/// How many of the numbers, which rise, are below another.
fn count_below(numbers: &[usize], end: usize) -> usize
    requires { AllPairs (λ a b. a ≤ b) numbers.now }
    ensures within { result ≤ length numbers.now }
    ensures below { (i d : ℕ) → i < result → slice_index_or numbers.now i d < end }
    ensures above { (i d : ℕ) → result ≤ i → i < length numbers.now → end ≤ slice_index_or numbers.now i d }
{
    numbers.partition_point(|number| *number < end)
}

/// The last of the numbers, which rise, that is below `end`, where it isn't below `begin`.
pub fn last_of(numbers: &[usize], begin: usize, end: usize) -> Option<usize>
    requires { AllPairs (λ a b. a ≤ b) numbers.now }
    ensures { MatchOption result (HasNoneOf numbers.now begin end) (λ w. IsLastOf numbers.now begin end w) }
{
    let count = count_below(numbers, end);
    if count == 0 {
        return None;
    }
    let last = numbers[count - 1];
    if last < begin {
        return None;
    }
    Some(last)
}
