//! Lists with an item for each place.

ghost use Rattle.std.specs.Prelude.{◌≡◌, ◌<◌, ◌≤◌, length, IfOk};

use std::alloc::{AllocError, Global};

/// Returns a list that has this item so many times.
pub fn many<T: Copy + Drop>(alloc: Global, one: T, count: usize) -> Result<Vec<T>, AllocError>
    ensures { IfOk result (λ all. length all.items ≡ count) }
{
    let mut all = Vec::with_capacity(alloc, count)?;
    for _one in 0..count {
        all.push(one)?;
    }
    Ok(all)
}

/// Takes all marks away.
pub fn clear(marks: &mut [bool])
    ensures { length marks.new ≡ length marks.old }
{
    for place in 0..marks.len() {
        marks[place] = false;
    }
}

/// Returns the place of the least number, the first of several.
pub fn least_of(numbers: &[u64]) -> usize
    requires { 1 ≤ length numbers.now }
    ensures { result < length numbers.now }
{
    let mut least = 0;
    for place in 1..numbers.len() {
        if numbers[place] < numbers[least] {
            least = place;
        }
    }
    least
}
