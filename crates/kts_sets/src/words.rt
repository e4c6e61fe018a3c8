ghost use Rattle.std.specs.Prelude.{◌≡◌, ◌+◌, ◌*◌, ℕ, ◌<◌, ◌≤◌, length, nat_eq, nat_lt, MatchOption, ◌&&◌, ◌||◌};
ghost use Rattle.std.specs.List.{sum_by};
ghost use Rattle.std.specs.Int.{bit_at};
ghost use Rattle.std.specs.Int.RustNames.{count_ones};
ghost use Rattle.kts_sets.specs.Bits.{IsLowest, IsLeastFromIfAny, has};

/// Words with the bits that both have.
pub fn both<const W: usize>(a: &[u64; W], b: &[u64; W]) -> [u64; W]
    ensures { (m : ℕ) → has result m ≡ (has a.now m && has b.now m) }
{
    let mut out = [0; W];
    for k in 0..W {
        out[k] = a[k] & b[k];
    }
    out
}

/// Words with the bits that either has.
pub fn either<const W: usize>(a: &[u64; W], b: &[u64; W]) -> [u64; W]
    ensures { (m : ℕ) → has result m ≡ (has a.now m || has b.now m) }
{
    let mut out = [0; W];
    for k in 0..W {
        out[k] = a[k] | b[k];
    }
    out
}

/// The word at place `k` of the numbers below `n`.
fn word_below(n: usize, k: usize) -> u64
    requires { k < 1024 }
    ensures { (j : ℕ) → j < 64 → nat_eq (bit_at result j) 1 ≡ nat_lt (k * 64 + j) n }
{
    let low = k * 64;
    if n >= low + 64 {
        return u64::MAX;
    }
    if n > low {
        return (1 << (n - low)) - 1;
    }
    0
}

/// The words of the numbers below `n`.
pub fn words_below<const W: usize>(n: usize) -> [u64; W]
    requires few_words { W ≤ 1024 }
    requires fits { n ≤ 64 * W }
    ensures { (m : ℕ) → has result m ≡ nat_lt m n }
{
    let mut out = [0; W];
    for k in 0..W {
        out[k] = word_below(n, k);
    }
    out
}

/// The words in a row that is not shorter.
pub fn longer<const W: usize, const V: usize>(words: &[u64; W]) -> [u64; V]
    requires { W ≤ V }
    ensures { (m : ℕ) → has result m ≡ has words.now m }
{
    let mut out = [0; V];
    out[..W].copy_from_slice(words);
    out
}

/// How many bits are set.
pub fn count(words: &[u64]) -> usize
    requires { length words.now ≤ 1024 }
    ensures { result ≡ sum_by count_ones words.now }
{
    let mut total = 0;
    for word in words {
        total += word.count_ones() as usize;
    }
    total
}

/// The place of the lowest bit.
fn lowest(word: u64) -> Option<usize>
    ensures { MatchOption result (word ≡ 0) (λ j. IsLowest word j) }
{
    if word == 0 {
        None
    } else {
        Some(word.trailing_zeros() as usize)
    }
}

/// The least number from `m` on whose bit is set.
pub fn least_from(words: &[u64], m: usize) -> Option<usize>
    requires { length words.now ≤ 1024 }
    ensures { IsLeastFromIfAny words.now m result }
{
    let start = m / 64;
    if start >= words.len() {
        return None;
    }
    match lowest(words[start] & (u64::MAX << (m % 64))) {
        Some(j) => return Some(start * 64 + j),
        None => {}
    }
    for k in start + 1..words.len() {
        match lowest(words[k]) {
            Some(j) => return Some(k * 64 + j),
            None => {}
        }
    }
    None
}
