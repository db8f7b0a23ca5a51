//! Words cut at a byte.

ghost use Rattle.std.specs.Option.{option_copied};
ghost use Rattle.run_words.specs.Words.{Cuts};

/// What stands before the first such byte, and after it, where there is one.
pub(crate) fn cut_at(word: &[u8], byte: u8) -> (&[u8], Option<&[u8]>)
    ensures { Cuts byte word.now result.0.now (option_copied result.1) }
{
    for k in 0..word.len() {
        if word[k] == byte {
            return (&word[..k], Some(&word[k + 1..]));
        }
    }
    (word, None)
}
