ghost use Rattle.std.specs.Prelude.{◌≡◌, ◌<◌, ◌≤◌, ◌+◌, length, get_or, [], option_map, IfSome};
ghost use Rattle.std.specs.List.{list_all, list_any};
ghost use Rattle.kts_read.specs.Lines.{split, piece_before, words_in, is_printable, is_empty, is_line};

/// The bytes before the first byte of this value, and those after it.
pub fn split_once(bytes: &[u8], at: u8) -> (&[u8], Option<&[u8]>)
    ensures pieces { split at bytes.now ≡ piece_before at result.0.now (option_map (λ rest. rest.now) result.1) }
    ensures shorter { IfSome result.1 (λ rest. length rest.now < length bytes.now) }
{
    for i in 0..bytes.len() {
        if bytes[i] == at {
            return (&bytes[..i], Some(&bytes[i + 1..]));
        }
    }
    (bytes, None)
}

/// The number of words of a line.
pub fn count_words(line: &[u8]) -> usize
    ensures { result ≡ length (words_in line.now) }
{
    let mut rest = line;
    let mut count = 1;
    while let (_, Some(after)) = split_once(rest, b' ') {
        rest = after;
        count += 1;
    }
    count
}

/// A word of a line, counted from 0.
pub fn word(line: &[u8], number: usize) -> &[u8]
    ensures { result.now ≡ get_or (words_in line.now) number [] }
{
    let mut rest = line;
    let mut left = number;
    while left > 0 {
        match split_once(rest, b' ') {
            (_, Some(after)) => rest = after,
            (_, None) => return b"",
        }
        left -= 1;
    }
    split_once(rest, b' ').0
}

fn is_printable(line: &[u8]) -> bool
    ensures { result ≡ is_printable line.now }
{
    line.iter().all(|byte| matches!(*byte, b' '..=b'~'))
}

fn has_empty_word(line: &[u8]) -> bool
    ensures { result ≡ list_any is_empty (words_in line.now) }
{
    let mut rest = line;
    loop {
        match split_once(rest, b' ') {
            (word, None) => return word.is_empty(),
            (word, Some(after)) => {
                if word.is_empty() {
                    return true;
                }
                rest = after;
            }
        }
    }
}

/// Whether a line has bytes of printed text, with one space between words and none at the ends.
pub fn is_line(line: &[u8]) -> bool
    ensures { result ≡ is_line line.now }
{
    is_printable(line) && !has_empty_word(line)
}
