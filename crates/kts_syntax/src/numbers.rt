ghost use Rattle.std.specs.Prelude.{◌≡◌, ◌≤◌, ◌==◌, IfSome};
ghost use Rattle.kts_base.specs.Limits.{most_number};
ghost use Rattle.kts_base.specs.Numerals.{begins, is_digit};
ghost use Rattle.kts_syntax.specs.Words.{numeral_of, negative_of, number_of, is_like_number};

use kts_base::{MAX_NUMBER, is_digit, read_numeral};

fn begins_with_digit(bytes: &[u8]) -> bool
    ensures { result ≡ begins is_digit bytes.now }
{
    !bytes.is_empty() && is_digit(bytes[0])
}

fn begins_with(bytes: &[u8], byte: u8) -> bool
    ensures { result ≡ begins (λ first. first == byte) bytes.now }
{
    !bytes.is_empty() && bytes[0] == byte
}

#[tactic(auto, unfolding(crate::specs::Words::numeral_of))]
fn numeral_of(bytes: &[u8]) -> Option<u64>
    ensures value { result ≡ numeral_of bytes.now }
    ensures small { IfSome result (λ value. value ≤ most_number) }
{
    read_numeral(0, MAX_NUMBER as u64, bytes)
}

#[tactic(auto, unfolding(crate::specs::Words::negative_of))]
fn negative_of(digits: &[u8]) -> Option<i64>
    ensures { result ≡ negative_of digits.now }
{
    if begins_with(digits, b'0') {
        return None;
    }
    let value = numeral_of(digits)?;
    Some(-(value as i64))
}

/// The number that the bytes are.
#[tactic(auto, unfolding(crate::specs::Words::number_of))]
pub fn number_of(bytes: &[u8]) -> Option<i64>
    ensures { result ≡ number_of bytes.now }
{
    if begins_with(bytes, b'-') {
        return negative_of(&bytes[1..]);
    }
    let value = numeral_of(bytes)?;
    Some(value as i64)
}

/// Whether a number is meant.
#[tactic(auto, unfolding(crate::specs::Words::is_like_number))]
pub fn is_like_number(bytes: &[u8]) -> bool
    ensures { result ≡ is_like_number bytes.now }
{
    begins_with_digit(bytes) || begins_with(bytes, b'-') && begins_with_digit(&bytes[1..])
}
