ghost use Rattle.std.specs.Prelude.{◌≡◌, ◌≤◌, ◌<◌, ◌+◌, ◌*◌, ◌≤ℤ◌, ◌<ℤ◌, pos, nat_abs, ◌+ℤ◌, ◌-ℤ◌, ◌*ℤ◌, true};
ghost use Rattle.std.specs.Int.{int_min, int_max};
ghost use Rattle.kts_base.specs.Limits.{most_members, most_parts};
ghost use Rattle.kts_spec.specs.Places.{is_in};
ghost use Rattle.kts_mean.specs.Bounds.{compares, Near};

use kts_spec::Comparison;

pub fn compare(comparison: Comparison, a: i64, b: i64) -> bool
    ensures { result ≡ compares comparison a b }
{
    match comparison {
        Comparison::Le => a <= b,
        Comparison::Lt => a < b,
        Comparison::Ge => a >= b,
        Comparison::Gt => a > b,
        Comparison::Eq => a == b,
        Comparison::Ne => a != b,
        Comparison::Same => a == b,
        Comparison::Other => a != b,
    }
}

pub fn plus(a: i64, b: i64) -> i64
    requires { Near most_parts (a +ℤ b) }
    ensures { result ≡ a +ℤ b }
{
    a + b
}

pub fn minus(a: i64, b: i64) -> i64
    requires { Near 1 (a -ℤ b) }
    ensures { result ≡ a -ℤ b }
{
    a - b
}

pub fn times(a: i64, b: i64) -> i64
    requires { Near 1 (a *ℤ b) }
    ensures { result ≡ a *ℤ b }
{
    a * b
}

pub fn least(a: i64, b: i64) -> i64
    ensures { result ≡ int_min a b }
{
    a.min(b)
}

pub fn greatest(a: i64, b: i64) -> i64
    ensures { result ≡ int_max a b }
{
    a.max(b)
}

/// A member as a number: its position in its index.
pub fn as_number(member: usize) -> i64
    requires { member < most_members }
    ensures { result ≡ pos member }
{
    member as i64
}

/// The member at a position.
pub fn as_member(value: i64) -> usize
    requires not_below { pos 0 ≤ℤ value }
    requires small { value <ℤ pos most_members }
    ensures value { result ≡ nat_abs value }
    ensures small { result < most_members }
{
    value as usize
}

/// The place of a pair among all pairs, where there are so many second members.
pub fn place_of_pair(first: usize, count: usize, second: usize) -> usize
    requires first { first < most_members }
    requires count { count ≤ most_members }
    requires second { second < most_members }
    ensures { result ≡ first * count + second }
{
    first * count + second
}
