ghost use Rattle.std.specs.Prelude.{◌≡◌, ◌≤◌, ◌↔◌, ◌^◌, IfSome, ℕ, List, Some};
ghost use Rattle.std.specs.List.{list_all};
ghost use Rattle.kts_base.specs.Numerals.{is_digit, is_numeral, numeral_within, IsNumber};

/// Whether the byte is a decimal digit.
pub fn is_digit(byte: u8) -> bool
    ensures { result ≡ is_digit byte }
{
    matches!(byte, b'0'..=b'9')
}

fn are_digits(bytes: &[u8]) -> bool
    ensures { result ≡ list_all is_digit bytes.now }
{
    bytes.iter().all(|byte| is_digit(*byte))
}

#[tactic(auto, unfolding(crate::specs::Numerals::is_numeral))]
fn is_numeral(bytes: &[u8]) -> bool
    ensures { result ≡ is_numeral bytes.now }
{
    are_digits(bytes) && !bytes.is_empty() && (bytes[0] > b'0' || bytes.len() == 1)
}

/// The number that the bytes write in decimal, without a sign or a leading zero, where it lies within these ends.
#[tactic(auto, using(crate::proofs::NumeralLemmas::value_after_rises, crate::proofs::NumeralLemmas::all_digits_here, crate::proofs::NumeralLemmas::value_here))]
pub fn read_numeral(low: u64, high: u64, bytes: &[u8]) -> Option<u64>
    requires { high ≤ 10 ^ 18 }
    ensures value { result ≡ numeral_within low high bytes.now }
    ensures within { IfSome result (λ n. n ≤ high) }
{
    if !is_numeral(bytes) {
        return None;
    }
    let mut value = 0;
    for digit in bytes {
        value = value * 10 + (*digit - b'0') as u64;
        if value > high {
            return None;
        }
    }
    if value < low {
        return None;
    }
    Some(value)
}

/// A number is read from the bytes that write it, and from no others.
pub fn numeral_law()
    ensures { (low high n : ℕ) (bytes : List ℕ) → high ≤ 10 ^ 18 → ((numeral_within low high bytes ≡ Some n) ↔ IsNumber low high bytes n) }
{}
