ghost use Rattle.std.specs.Prelude.{◌≡◌, ◌*ℤ◌, Some, length};
ghost use Rattle.kts_spec.specs.Ranges.{one_number, difference_range, product_range, least_range, greatest_range, sum_over_range, least_of_four, greatest_of_four};
ghost use Rattle.kts_check.specs.Measures.{is_limited, limited_term, total, two, two_wholes, both_wholes, range_of_sum, kind_of, is_member, are_members};

use crate::fault::{SpecFault, SpecKind};
use crate::kind::Kind;
use crate::phrase::Phrase;
use kts_base::{MAX_MEMBERS, MAX_NUMBER, fail};
use kts_spec::{Term, ValueType};

fn is_limited(n: i128) -> bool
    ensures { result ≡ is_limited n }
{
    -(MAX_NUMBER as i128) <= n && n <= MAX_NUMBER as i128
}

/// A term with its range, which must be within the limit.
pub fn limited_term(at: usize, term: Term, range: Option<(i128, i128)>) -> Result<Phrase, SpecFault>
    ensures { result ≡ limited_term at term range }
{
    match range {
        None => fail(SpecKind::WrongKind, at),
        Some((low, high)) => {
            if is_limited(low) && is_limited(high) {
                return Ok(Phrase::Value(term, Kind::Whole(low as i64, high as i64)));
            }
            fail(SpecKind::Unbounded(low, high), at)
        }
    }
}

/// The range of a number.
pub fn number(n: i64) -> Option<(i128, i128)>
    ensures { result ≡ Some (one_number n) }
{
    Some((n as i128, n as i128))
}

/// The range of a sum.
pub fn total(kinds: &[Kind]) -> Option<(i128, i128)>
    ensures { result ≡ total kinds.now }
{
    let mut low: i128 = 0;
    let mut high: i128 = 0;
    for kind in kinds {
        match kind {
            Kind::Member(_) => return None,
            Kind::Whole(a, b) => {
                low += *a as i128;
                high += *b as i128;
            }
        }
    }
    Some((low, high))
}

fn both_wholes(k: Kind, l: Kind) -> Option<((i64, i64), (i64, i64))>
    ensures { result ≡ both_wholes k l }
{
    match k {
        Kind::Whole(a, b) => match l {
            Kind::Whole(c, d) => Some(((a, b), (c, d))),
            Kind::Member(_) => None,
        },
        Kind::Member(_) => None,
    }
}

fn two_wholes(kinds: &[Kind]) -> Option<((i64, i64), (i64, i64))>
    ensures { result ≡ two_wholes kinds.now }
{
    if kinds.len() != 2 {
        return None;
    }
    let first = kinds[0];
    let second = kinds[1];
    both_wholes(first, second)
}

fn difference_of(v: &(i64, i64), w: &(i64, i64)) -> (i128, i128)
    ensures { result ≡ difference_range v.now w.now }
{
    (v.0 as i128 - w.1 as i128, v.1 as i128 - w.0 as i128)
}

fn times(x: i64, y: i64) -> i128
    ensures { result ≡ x *ℤ y }
{
    x as i128 * y as i128
}

fn least_in(p: i128, q: i128, r: i128, s: i128) -> i128
    ensures { result ≡ least_of_four p q r s }
{
    p.min(q).min(r.min(s))
}

fn greatest_in(p: i128, q: i128, r: i128, s: i128) -> i128
    ensures { result ≡ greatest_of_four p q r s }
{
    p.max(q).max(r.max(s))
}

fn product_of(v: &(i64, i64), w: &(i64, i64)) -> (i128, i128)
    ensures { result ≡ product_range v.now w.now }
{
    let p = times(v.0, w.0);
    let q = times(v.0, w.1);
    let r = times(v.1, w.0);
    let s = times(v.1, w.1);
    (least_in(p, q, r, s), greatest_in(p, q, r, s))
}

fn least_of(v: &(i64, i64), w: &(i64, i64)) -> (i128, i128)
    ensures { result ≡ least_range v.now w.now }
{
    (v.0.min(w.0) as i128, v.1.min(w.1) as i128)
}

fn greatest_of(v: &(i64, i64), w: &(i64, i64)) -> (i128, i128)
    ensures { result ≡ greatest_range v.now w.now }
{
    (v.0.max(w.0) as i128, v.1.max(w.1) as i128)
}

/// The range of a difference of two.
pub fn difference(kinds: &[Kind]) -> Option<(i128, i128)>
    ensures { result ≡ two difference_range kinds.now }
{
    match two_wholes(kinds) {
        Some((v, w)) => Some(difference_of(&v, &w)),
        None => None,
    }
}

/// The range of a product of two.
pub fn product(kinds: &[Kind]) -> Option<(i128, i128)>
    ensures { result ≡ two product_range kinds.now }
{
    match two_wholes(kinds) {
        Some((v, w)) => Some(product_of(&v, &w)),
        None => None,
    }
}

/// The range of the lesser of two.
pub fn least(kinds: &[Kind]) -> Option<(i128, i128)>
    ensures { result ≡ two least_range kinds.now }
{
    match two_wholes(kinds) {
        Some((v, w)) => Some(least_of(&v, &w)),
        None => None,
    }
}

/// The range of the greater of two.
pub fn greatest(kinds: &[Kind]) -> Option<(i128, i128)>
    ensures { result ≡ two greatest_range kinds.now }
{
    match two_wholes(kinds) {
        Some((v, w)) => Some(greatest_of(&v, &w)),
        None => None,
    }
}

fn over_all(v: &(i64, i64)) -> (i128, i128)
    ensures { result ≡ sum_over_range v.now }
{
    let most = MAX_MEMBERS as i128;
    (most * v.0.min(0) as i128, most * v.1.max(0) as i128)
}

/// The range of a sum over an index.
#[tactic(auto, unfolding(crate::specs::Measures::range_of_sum))]
pub fn range_of_sum(kind: Kind) -> Option<(i128, i128)>
    ensures { result ≡ range_of_sum kind }
{
    match kind {
        Kind::Whole(low, high) => {
            let v = (low, high);
            Some(over_all(&v))
        }
        Kind::Member(_) => None,
    }
}

/// What a value of a type is.
#[tactic(auto, unfolding(crate::specs::Measures::kind_of))]
pub fn kind_of(kind: ValueType) -> Kind
    ensures { result ≡ kind_of kind }
{
    match kind {
        ValueType::Int { lo, hi } => Kind::Whole(lo, hi),
        ValueType::Member(i) => Kind::Member(i),
    }
}

fn is_member(index: u32, kind: &Kind) -> bool
    ensures { result ≡ is_member index kind.now }
{
    match kind {
        Kind::Whole(_, _) => false,
        Kind::Member(i) => index == *i,
    }
}

/// Whether these are members of these indexes.
pub fn are_members(indexes: &[u32], kinds: &[Kind]) -> bool
    requires { length kinds.now ≡ length indexes.now }
    ensures { result ≡ are_members indexes.now kinds.now }
{
    for (k, i) in indexes.iter().enumerate() {
        if !is_member(*i, &kinds[k]) {
            return false;
        }
    }
    true
}
