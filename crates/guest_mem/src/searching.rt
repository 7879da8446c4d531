// Where a number stands in a list of numbers that rise.
ghost use Rattle.std.specs.Prelude.{◌≡◌, ◌≢◌, ℕ, ◌+◌, ◌<◌, ◌≤◌, ◌↔◌, IsTrue, Some, IfSome, IfNone, length, slice_get, slice_index};
ghost use Rattle.std.specs.List.Sorted.{IsStrictlyIncreasing};

// The place of the first number that is not below this one; their count where all are below it. The part in which it may
// be is halved until it is empty.
#[tactic(auto, using(crate::proofs::Rising::halving_steps))]
pub(crate) fn lower_bound(numbers: &[u32], number: u32) -> usize
    requires { IsStrictlyIncreasing numbers.now }
    ensures inside { result ≤ length numbers.now }
    ensures below { (k : ℕ) → k < result → slice_index numbers.now k < number }
    ensures above { (k : ℕ) → result ≤ k → k < length numbers.now → number ≤ slice_index numbers.now k }
{
    let mut low = 0;
    let mut high = numbers.len();
    while low < high {
        let middle = low + (high - low) / 2;
        if numbers[middle] < number {
            low = middle + 1;
        } else {
            high = middle;
        }
    }
    low
}

// Whether the number stands at a place.
fn stands_at(numbers: &[u32], at: usize, number: u32) -> bool
    ensures { IsTrue result ↔ (slice_get numbers.now at ≡ Some number) }
{
    at < numbers.len() && numbers[at] == number
}

// Where the number stands if none is missing between the first number and it. It saves the search in the run of pages
// that an image begins with.
fn place_from_first(numbers: &[u32], number: u32) -> usize {
    match numbers.first() {
        Some(first) => number.wrapping_sub(*first) as usize,
        None => 0,
    }
}

// Where the number stands if none is missing between it and the last number. It saves the search in the stack.
fn place_from_last(numbers: &[u32], number: u32) -> usize {
    match numbers.last() {
        Some(last) => numbers
            .len()
            .wrapping_sub(1 + last.wrapping_sub(number) as usize),
        None => 0,
    }
}

// Exactly where the number is, or none.
pub(crate) fn index_of(numbers: &[u32], number: u32) -> Option<usize>
    requires { IsStrictlyIncreasing numbers.now }
    ensures found { IfSome result (λ at. slice_get numbers.now at ≡ Some number) }
    ensures absent { IfNone result ((k : ℕ) → slice_get numbers.now k ≢ Some number) }
{
    let near_first = place_from_first(numbers, number);
    if stands_at(numbers, near_first, number) {
        return Some(near_first);
    }
    let near_last = place_from_last(numbers, number);
    if stands_at(numbers, near_last, number) {
        return Some(near_last);
    }
    let at = lower_bound(numbers, number);
    if stands_at(numbers, at, number) {
        return Some(at);
    }
    None
}
