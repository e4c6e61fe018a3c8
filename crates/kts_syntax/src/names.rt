ghost use Rattle.std.specs.Prelude.{◌≡◌, ◌==◌, map};
ghost use Rattle.std.specs.List.{list_any};
ghost use Rattle.kts_syntax.specs.Words.{is_text, is_letter, reserved, word_of};
ghost use Rattle.kts_base.specs.Numerals.{begins, is_digit};

use kts_base::Name;

/// The words that are no names.
const RESERVED: [&[u8]; 20] = [
    b"spec",
    b"index",
    b"given",
    b"choose",
    b"formula",
    b"manifest",
    b"order",
    b"down",
    b"int",
    b"set",
    b"forall",
    b"exists",
    b"and",
    b"or",
    b"not",
    b"min",
    b"max",
    b"sum",
    b"in",
    b"size",
];

pub fn is_text(bytes: &[u8], text: &[u8]) -> bool
    ensures { result ≡ is_text bytes.now text.now }
{
    bytes == text
}

fn is_one_of(bytes: &[u8], words: &[&[u8]]) -> bool
    ensures { result ≡ list_any (is_text bytes.now) (map (λ word. word.now) words.now) }
{
    for word in words {
        if is_text(bytes, word) {
            return true;
        }
    }
    false
}

fn is_reserved(bytes: &[u8]) -> bool
    ensures { result ≡ list_any (is_text bytes.now) reserved }
{
    is_one_of(bytes, &RESERVED)
}

fn has_dot(bytes: &[u8]) -> bool
    ensures { result ≡ list_any (λ byte. byte == 46) bytes.now }
{
    bytes.iter().any(|byte| *byte == b'.')
}

fn begins_with_letter(bytes: &[u8]) -> bool
    ensures { result ≡ begins is_letter bytes.now }
{
    !bytes.is_empty() && matches!(bytes[0], b'a'..=b'z' | b'A'..=b'Z')
}

/// The name that the bytes are, in a form.
#[tactic(auto, unfolding(crate::specs::Words::is_word))]
pub fn name_of(bytes: &[u8]) -> Option<Name>
    ensures { result ≡ word_of bytes.now }
{
    let name = Name::new(bytes)?;
    if begins_with_letter(bytes) && !has_dot(bytes) && !is_reserved(bytes) {
        return Some(name);
    }
    None
}
