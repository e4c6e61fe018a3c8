ghost use Rattle.std.specs.Prelude.{◌≡◌, ◌==◌, map};
ghost use Rattle.std.specs.List.{list_all, list_any};
ghost use Rattle.kts_spec.specs.Names.{is_letter, is_language_byte, is_among, reserved_words, is_language_name};
ghost use Rattle.kts_base.specs.Numerals.{begins};
ghost use Rattle.kts_read.specs.Words.{is_text, name_in};

use kts_base::{MAX_NAME_BYTES, Name};

/// The words that are no names.
const RESERVED: [&[u8]; 20] = [
    b"spec",
    b"index",
    b"given",
    b"choose",
    b"formula",
    b"manifest",
    b"order",
    b"down",
    b"int",
    b"set",
    b"forall",
    b"exists",
    b"and",
    b"or",
    b"not",
    b"min",
    b"max",
    b"sum",
    b"in",
    b"size",
];

pub fn is_text(bytes: &[u8], text: &[u8]) -> bool
    ensures { result ≡ is_text bytes.now text.now }
{
    bytes == text
}

fn is_one_of(bytes: &[u8], words: &[&[u8]]) -> bool
    ensures { result ≡ list_any (is_text bytes.now) (map (λ word. word.now) words.now) }
{
    for word in words {
        if is_text(bytes, word) {
            return true;
        }
    }
    false
}

fn is_reserved(bytes: &[u8]) -> bool
    ensures { result ≡ is_among reserved_words bytes.now }
{
    is_one_of(bytes, &RESERVED)
}

fn is_letter(byte: u8) -> bool
    ensures { result ≡ is_letter byte }
{
    matches!(byte, b'a'..=b'z' | b'A'..=b'Z')
}

fn is_language_byte(byte: u8) -> bool
    ensures { result ≡ is_language_byte byte }
{
    matches!(byte, b'a'..=b'z' | b'A'..=b'Z' | b'0'..=b'9' | b'_' | b'-')
}

fn begins_with_letter(bytes: &[u8]) -> bool
    ensures { result ≡ begins is_letter bytes.now }
{
    !bytes.is_empty() && is_letter(bytes[0])
}

fn are_language_bytes(bytes: &[u8]) -> bool
    ensures { result ≡ list_all is_language_byte bytes.now }
{
    bytes.iter().all(|byte| is_language_byte(*byte))
}

#[tactic(auto, using(crate::proofs::LanguageNames::begins_same))]
fn is_language_name(bytes: &[u8]) -> bool
    ensures { result ≡ is_language_name bytes.now }
{
    begins_with_letter(bytes)
        && are_language_bytes(bytes)
        && bytes.len() <= MAX_NAME_BYTES
        && !is_reserved(bytes)
}

/// The name that a word is.
#[tactic(auto, using(crate::proofs::LanguageNames::language_named))]
pub fn name_in(word: &[u8]) -> Option<Name>
    ensures { result ≡ name_in word.now }
{
    if is_language_name(word) {
        return Name::new(word);
    }
    None
}
