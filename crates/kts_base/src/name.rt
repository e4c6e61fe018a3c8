ghost use Rattle.std.specs.Prelude.{◌≡◌, ◌≤◌, ◌-◌, true, IsTrue, length, take, drop, replicate, nat_eq};
ghost use Rattle.std.specs.List.{list_all};
ghost use Rattle.std.specs.Cmp.{partial_equiv_from_equiv};
ghost use Rattle.std.specs.Cmp.Lexicographic.{pointwise, nat_list_eq_equiv};
ghost use Rattle.std.specs.Cmp.Rules.{hashing};
ghost use Rattle.std.specs.Hash as fed;
ghost use Rattle.std.proofs.Common.{rules};
ghost use Rattle.kts_base.specs.Limits.{most_name_bytes};
ghost use Rattle.kts_base.specs.Names.{is_name, is_name_byte, name_of};

use crate::limits::MAX_NAME_BYTES;
use std::hash::{Hash, Hasher};
use std::marker::Model;

/// One to forty bytes out of ASCII letters, digits, `_`, `-` and `.`, copied freely.
///
/// Two names are equal exactly where their bytes are.
#[derive(Clone, Copy, Debug)]
pub struct Name {
    bytes: [u8; MAX_NAME_BYTES],
    count: usize,
}

impl Model for Name {
    ghost use Rattle.std.specs.Prelude.{◌++◌, ◌-◌, List, ℕ, length, take, replicate};
    ghost use Rattle.kts_base.specs.Limits.{most_name_bytes};
    ghost use Rattle.kts_base.specs.Padding.{IsPadded};
    ghost use Rattle.kts_base.specs.PaddingLaws.{bytes_again, count_again};

    ghost Value = { List ℕ };

    ghost view = { λ name. take name.count name.bytes };

    ghost invariant = { λ name. IsPadded name.bytes name.count };

    ghost inverse = { λ bytes. record { bytes = bytes ++ replicate (most_name_bytes - length bytes) 0; count = length bytes } };

    ghost inverse_ok = { λ name padded i. record { bytes = bytes_again name.bytes name.count padded i; count = count_again name.bytes name.count padded i } };
}

impl Name {
    /// The name with these bytes; None exactly where they are none.
    pub fn new(bytes: &[u8]) -> Option<Name>
        ensures { result ≡ name_of bytes.now }
    {
        if is_name(bytes) {
            return Some(Name {
                bytes: padded(bytes),
                count: bytes.len(),
            });
        }
        None
    }

    pub fn bytes(&self) -> &[u8]
        ensures bytes { result.now ≡ self.now }
        ensures name { is_name self.now ≡ true }
    {
        &self.bytes[..self.count]
    }
}

#[tactic(auto, unfolding(crate::specs::Names::is_name_byte))]
fn is_name_byte(byte: u8) -> bool
    ensures { result ≡ is_name_byte byte }
{
    matches!(byte, b'a'..=b'z' | b'A'..=b'Z' | b'0'..=b'9' | b'_' | b'-' | b'.')
}

fn are_name_bytes(bytes: &[u8]) -> bool
    ensures { result ≡ list_all is_name_byte bytes.now }
{
    bytes.iter().all(|byte| is_name_byte(*byte))
}

#[tactic(auto, unfolding(crate::specs::Names::is_name))]
fn is_name(bytes: &[u8]) -> bool
    ensures name { result ≡ is_name bytes.now }
    ensures few { IsTrue result → length bytes.now ≤ most_name_bytes }
{
    if bytes.is_empty() || bytes.len() > MAX_NAME_BYTES {
        return false;
    }
    are_name_bytes(bytes)
}

// The bytes, and zeros after them.
fn padded(bytes: &[u8]) -> [u8; MAX_NAME_BYTES]
    requires { length bytes.now ≤ most_name_bytes }
    ensures front { take (length bytes.now) result ≡ bytes.now }
    ensures rest { drop (length bytes.now) result ≡ replicate (most_name_bytes - length bytes.now) 0 }
{
    let mut out = [0u8; MAX_NAME_BYTES];
    out[..bytes.len()].copy_from_slice(bytes);
    out
}

impl PartialEq for Name {
    ghost eq = { pointwise nat_eq };

    ghost laws = { partial_equiv_from_equiv nat_list_eq_equiv };

    fn eq(&self, other: &Self) -> bool {
        self.bytes() == other.bytes()
    }
}

impl Eq for Name {
    ghost laws = { nat_list_eq_equiv };
}

impl Hash for Name {
    ghost hash_input = { λ name. fed.slice fed.u8 name };

    ghost respects_eq = { Prim.search (hashing, rules) };

    fn hash<H: Hasher>(&self, state: &mut H) {
        self.bytes().hash(state);
    }
}
