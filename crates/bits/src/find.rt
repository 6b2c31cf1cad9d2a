// What a set holds: its least number, the next one, the only one, and how many there are.
ghost use Rattle.std.specs.Prelude.{◌≡◌, ℕ, ◌*◌, ◌/◌, ◌%◌, ◌^◌, ◌<◌, ◌≤◌, slice_index, IfNone, IfSome};
ghost use Rattle.bits.specs.Sets.{holds, members, Least, Alone, from_on};

use crate::set::{Set, flip};

// The first word from i on that is not 0, with its place.
fn first_word(set: &Set, i: usize) -> Option<(usize, &u64)>
    ensures none { IfNone result ((k : ℕ) → i ≤ k → slice_index set.now k ≡ 0) }
    ensures before { IfSome result (λ f. (k : ℕ) → i ≤ k → k < f.0 → slice_index set.now k ≡ 0) }
    ensures found { IfSome result (λ f. (i ≤ f.0) × (f.1.now ≡ slice_index set.now f.0) × (0 < f.1.now)) }
    ensures end { IfSome result (λ f. f.0 < 8) }
{
    set.iter().enumerate().skip(i).find(|(_, word)| **word != 0)
}

// What is left of a number's word from the number on, 0 past the end of the set.
fn rest_at(set: &Set, c: usize) -> u64
    ensures { result ≡ slice_index set.now (c / 64) / 2 ^ (c % 64) }
{
    set.get(c / 64).map_or(0, |word| *word >> (c % 64))
}

// The least number from word i on.
fn least_from(set: &Set, i: usize) -> Option<usize>
    ensures { Least (from_on (64 * i) (holds set.now)) result }
{
    let (j, word) = first_word(set, i)?;
    Some(64 * j + word.trailing_zeros() as usize)
}

// The least number that the set holds.
pub fn least(set: &Set) -> Option<usize>
    ensures { Least (holds set.now) result }
{
    least_from(set, 0)
}

// The least number from `low` on that the set holds.
pub fn next(set: &Set, low: usize) -> Option<usize>
    ensures { Least (from_on low (holds set.now)) result }
{
    let rest = rest_at(set, low);
    if rest != 0 {
        return Some(low + rest.trailing_zeros() as usize);
    }
    least_from(set, low / 64 + 1)
}

// The only number that the set holds; none where it holds none, or another.
pub fn alone(set: &Set) -> Option<usize>
    ensures { Alone (holds set.now) result }
{
    let c = least(set)?;
    let mut rest = *set;
    flip(&mut rest, c);
    least(&rest).is_none().then_some(c)
}

// How many numbers the set holds.
pub fn count(set: &Set) -> usize
    ensures { result ≡ members set.now }
{
    set.iter().map(|w| w.count_ones() as usize).sum()
}
