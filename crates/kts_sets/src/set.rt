ghost use Rattle.std.specs.Prelude.{◌≡◌, ◌↔◌, ℕ, ◌*◌, ◌<◌, ◌≤◌, [], ◌∷◌, length, All, IsSome, IfSome, ◌||◌, filter, slice_get};
ghost use Rattle.std.specs.List.{range_with_len};
ghost use Rattle.std.specs.List.Sorted.{IsStrictlyIncreasing};
ghost use Rattle.kts_sets.specs.Sets.{IsSet, set_of, elem, other, not_below};

use crate::words::{both, count, either, least_from, longer, words_below};
use std::marker::Model;

/// A set of numbers below `64 * W`, where `W` is at most 1,024.
#[derive(Clone, Copy, Debug)]
pub struct MemberSet<const W: usize> {
    words: [u64; W],
}

impl<const W: usize> Model for MemberSet<W> {
    ghost use Rattle.std.specs.Prelude.{List, ℕ};
    ghost use Rattle.kts_sets.specs.Sets.{set_of};
    ghost use Rattle.kts_sets.specs.Bits.{AreWords, has, words_of};
    ghost use Rattle.kts_sets.specs.BitLaws.{words_again};

    ghost Value = { List ℕ };

    ghost view = { λ s. set_of (has s.words) };

    ghost invariant = { λ s. AreWords W s.words };

    ghost inverse = { λ members. record { words = words_of W members } };

    ghost inverse_ok = { λ s h i. record { words = words_again W s.words h i } };
}

impl<const W: usize> MemberSet<W> {
    pub fn empty() -> Self
        requires { W ≤ 1024 }
        ensures { result ≡ [] }
    {
        MemberSet { words: [0; W] }
    }

    /// The set of `m` alone, if it may be a member.
    pub fn single(m: usize) -> Option<Self>
        requires { W ≤ 1024 }
        ensures may_be { IsSome result ↔ (m < 64 * W) }
        ensures member { IfSome result (λ s. s ≡ m ∷ []) }
    {
        if m / 64 >= W {
            return None;
        }
        let mut words = [0; W];
        words[m / 64] |= 1 << (m % 64);
        Some(MemberSet { words })
    }

    /// The set of the numbers below `n`, if they may all be members.
    pub fn below(n: usize) -> Option<Self>
        requires { W ≤ 1024 }
        ensures may_be { IsSome result ↔ (n ≤ 64 * W) }
        ensures members { IfSome result (λ s. s ≡ range_with_len 0 n) }
    {
        if n > 64 * W {
            return None;
        }
        Some(MemberSet {
            words: words_below(n),
        })
    }

    /// The members of both.
    pub fn meet(&self, other: &Self) -> Self
        ensures { result ≡ filter (λ m. elem m other.now) self.now }
    {
        MemberSet {
            words: both(&self.words, &other.words),
        }
    }

    /// The members of either.
    pub fn join_sets(&self, other: &Self) -> Self
        ensures { result ≡ set_of (λ m. elem m self.now || elem m other.now) }
    {
        MemberSet {
            words: either(&self.words, &other.words),
        }
    }

    /// The members but `m`.
    pub fn without(&self, m: usize) -> Self
        ensures { result ≡ filter (other m) self.now }
    {
        let mut words = self.words;
        if m / 64 < W {
            words[m / 64] &= !(1 << (m % 64));
        }
        MemberSet { words }
    }

    pub fn contains(&self, m: usize) -> bool
        ensures { result ≡ elem m self.now }
    {
        let at = m / 64;
        at < W && (self.words[at] >> (m % 64)) & 1 == 1
    }

    /// How many members there are.
    pub fn len(&self) -> usize
        ensures len { result ≡ length self.now }
        ensures set { IsSet self.now }
        ensures rising { IsStrictlyIncreasing self.now }
        ensures below { All (λ m. m < 64 * W) self.now }
        ensures few_words { W ≤ 1024 }
    {
        count(&self.words)
    }

    /// The least member.
    pub fn first(&self) -> Option<usize>
        ensures least { result ≡ slice_get self.now 0 }
        ensures below { IfSome result (λ m. m < 64 * W) }
        ensures few_words { W ≤ 1024 }
    {
        least_from(&self.words, 0)
    }

    /// The least member that is not below `m`.
    pub fn from(&self, m: usize) -> Option<usize>
        ensures least { result ≡ slice_get (filter (not_below m) self.now) 0 }
        ensures below { IfSome result (λ m. m < 64 * W) }
        ensures few_words { W ≤ 1024 }
    {
        least_from(&self.words, m)
    }

    /// The same members in a set of another width, if that is not narrower.
    pub fn widen<const V: usize>(&self) -> Option<MemberSet<V>>
        requires { V ≤ 1024 }
        ensures wide { IsSome result ↔ (W ≤ V) }
        ensures members { IfSome result (λ s. s ≡ self.now) }
    {
        if V < W {
            return None;
        }
        Some(MemberSet {
            words: longer(&self.words),
        })
    }
}
