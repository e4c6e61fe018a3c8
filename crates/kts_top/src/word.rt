ghost use Rattle.std.specs.Prelude.{◌≡◌};
ghost use Rattle.kts_top.specs.Words.{is_file_word, is_word};

/// Whether a word is this one.
pub fn is_word(word: &str, name: &str) -> bool
    ensures { result ≡ is_word word.now name.now }
{
    word == name
}

/// Whether a word may name a file.
pub fn is_file_word(word: &str) -> bool
    ensures { result ≡ is_file_word word.now }
{
    match word.as_bytes() {
        [] => false,
        [first, ..] => *first != b'-',
    }
}
