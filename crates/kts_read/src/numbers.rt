ghost use Rattle.std.specs.Prelude.{◌≡◌, ◌≤◌, ◌<◌, ◌==◌, IfSome};
ghost use Rattle.kts_base.specs.Limits.{most_number};
ghost use Rattle.kts_base.specs.Numerals.{begins, numeral_within};
ghost use Rattle.kts_read.specs.Words.{negative_of, number_of, whole_in, number_below};

use kts_base::{MAX_INSTRUCTIONS, MAX_NUMBER, read_numeral};

fn begins_with(bytes: &[u8], byte: u8) -> bool
    ensures { result ≡ begins (λ first. first == byte) bytes.now }
{
    !bytes.is_empty() && bytes[0] == byte
}

fn numeral_of(low: u64, bytes: &[u8]) -> Option<u64>
    ensures value { result ≡ numeral_within low most_number bytes.now }
    ensures small { IfSome result (λ value. value ≤ most_number) }
{
    read_numeral(low, MAX_NUMBER as u64, bytes)
}

#[tactic(auto, unfolding(crate::specs::Words::negative_of))]
fn negative_of(digits: &[u8]) -> Option<i64>
    ensures { result ≡ negative_of digits.now }
{
    let value = numeral_of(1, digits)?;
    Some(-(value as i64))
}

/// The number that a word is.
#[tactic(auto, unfolding(crate::specs::Words::number_of))]
pub fn number_of(word: &[u8]) -> Option<i64>
    ensures { result ≡ number_of word.now }
{
    if begins_with(word, b'-') {
        return negative_of(&word[1..]);
    }
    let value = numeral_of(0, word)?;
    Some(value as i64)
}

/// The whole number that a word is, where it is at least the first and below the second.
#[tactic(auto, unfolding(crate::specs::Words::whole_in))]
pub fn whole_in(low: u32, end: u32, word: &[u8]) -> Option<u32>
    ensures value { result ≡ whole_in low end word.now }
    ensures below { IfSome result (λ n. n < end) }
{
    match number_of(word) {
        None => None,
        Some(z) => {
            if i64::from(low) <= z && z < i64::from(end) {
                return Some(z as u32);
            }
            None
        }
    }
}

/// The number of something of which there are so many.
pub fn number_below(count: usize, word: &[u8]) -> Option<u32>
    ensures value { result ≡ number_below count word.now }
    ensures below { IfSome result (λ n. n < count) }
{
    let end = count.min(MAX_INSTRUCTIONS + 1);
    whole_in(0, end as u32, word)
}
