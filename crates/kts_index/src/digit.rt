ghost use Rattle.std.specs.Prelude.{◌+◌, ◌*◌, ◌/◌, ◌%◌, ◌<◌, ◌≤◌, nat_eq};
ghost use Rattle.kts_base.specs.Limits.{most_tasks};
ghost use Rattle.kts_index.specs.FirstNumbers.{IsSkip};

/// The first number from `from` on that has this digit, out of `base`, at the place that counts
/// `width`. Numbers with the digit stand in rows of `width`, one row in each block of `base * width`.
pub fn first_with_digit(from: usize, width: usize, base: usize, digit: usize) -> usize
    requires width { 0 < width }
    requires digit { digit < base }
    requires block { base * width ≤ most_tasks }
    requires from { from ≤ most_tasks }
    ensures skip { IsSkip (λ x. nat_eq (x / width % base) digit) from result }
    ensures near { result ≤ from + base * width }
{
    let block = base * width;
    let row = from / block * block + digit * width;
    if from < row {
        row
    } else if from < row + width {
        from
    } else {
        row + block
    }
}
