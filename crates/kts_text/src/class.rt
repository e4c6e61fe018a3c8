ghost use Rattle.std.specs.Prelude.{◌≡◌};
ghost use Rattle.kts_text.specs.Bytes.{class};

/// What a byte is outside comments.
#[derive(Clone, Copy, Debug, PartialEq, Eq)]
pub enum Class {
    White,
    Semicolon,
    Open,
    Close,
    Letter,
    Bad,
}

#[tactic(auto, unfolding(crate::specs::Bytes::class))]
pub fn class_of(byte: u8) -> Class
    ensures { result ≡ class byte }
{
    match byte {
        b' ' | b'\t' | b'\n' | b'\r' => Class::White,
        b';' => Class::Semicolon,
        b'(' => Class::Open,
        b')' => Class::Close,
        b'!'..=b'~' => Class::Letter,
        _ => Class::Bad,
    }
}
