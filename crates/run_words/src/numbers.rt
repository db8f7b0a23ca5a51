//! Numbers by their decimal digits.

ghost use Rattle.std.specs.Prelude.{◌≡◌, ◌≤◌};
ghost use Rattle.run_words.specs.Words.{digits_of, negative_of, number_of, positive_of, value_of};

/// The value of 1 to `most` digits, at most 20: none where there are none, or more, or another byte.
#[tactic(auto, unfolding(crate::specs::Words::digits_of))]
fn digits(word: &[u8], most: usize) -> Option<u128>
    requires { most ≤ 20 }
    ensures { result ≡ digits_of most word.now }
{
    if word.is_empty() || word.len() > most {
        return None;
    }
    let mut value: u128 = 0;
    for digit in word {
        if !digit.is_ascii_digit() {
            return None;
        }
        value = 10 * value + u128::from(*digit - b'0');
    }
    Some(value)
}

/// The number that a word of 1 to 10 digits is: none where the word is no such one, or the number isn't below 2^32.
pub fn parse_number(word: &[u8]) -> Option<u32>
    ensures { result ≡ number_of word.now }
{
    let value = digits(word, 10)?;
    if value > 4_294_967_295 {
        return None;
    }
    Some(value as u32)
}

/// The value that a word of 1 to 20 digits is, after a `-` where it is negative: none where the word is no such one, or the value isn't from -2^63 to
/// 2^64 - 1.
pub fn parse_value(word: &[u8]) -> Option<i128>
    ensures { result ≡ value_of word.now }
{
    match word {
        [b'-', rest @ ..] => negative(rest),
        [_, ..] => positive(word),
        [] => None,
    }
}

/// The value of 1 to 20 digits, below 2^64.
fn positive(word: &[u8]) -> Option<i128>
    ensures { result ≡ positive_of word.now }
{
    let value = digits(word, 20)?;
    if value >= 18_446_744_073_709_551_616 {
        return None;
    }
    Some(value as i128)
}

/// The negative of 1 to 20 digits, at least -2^63.
fn negative(word: &[u8]) -> Option<i128>
    ensures { result ≡ negative_of word.now }
{
    let value = digits(word, 20)?;
    if value > 9_223_372_036_854_775_808 {
        return None;
    }
    Some(-(value as i128))
}
