// Sets: what they hold, putting in and taking out, sums and what is shared.
ghost use Rattle.std.specs.Prelude.{◌≡◌, ℕ, ◌/◌, ◌%◌, ◌^◌, ◌<◌, MatchBool};
ghost use Rattle.bits.specs.Sets.{bit, holds, xors, ands, Put, Flipped};

use std::simd::prelude::*;

// A set of numbers below 512, plain words as the rows in a search's memory are: c is in it if bit c % 64 of word c / 64 is set.
pub type Set = [u64; 8];

// Whether bit k of a word is set.
pub(crate) fn bit_at(word: u64, k: usize) -> bool
    requires { k < 64 }
    ensures { result ≡ bit word k }
{
    (word >> k) & 1 == 1
}

// Whether the words hold c; none hold a number past their end.
pub fn has(words: &[u64], c: usize) -> bool
    ensures { result ≡ holds words.now c }
{
    words.get(c / 64).is_some_and(|word| bit_at(*word, c % 64))
}

// Puts c in; nothing past the end of the words. (`get_mut` of a slice says nothing of what the slice ends as.)
pub fn put(words: &mut [u64], c: usize)
    ensures { Put c words.old words.new }
{
    if c / 64 < words.len() {
        words[c / 64] |= 1 << (c % 64);
    }
}

// Takes c out where it is in, and puts it in where it is not; nothing past the end of the words.
pub fn flip(words: &mut [u64], c: usize)
    ensures { Flipped c words.old words.new }
{
    flip_if(words, c, true);
}

// The same if `on` says so, without a branch on it. By index, as `put`.
pub fn flip_if(words: &mut [u64], c: usize, on: bool)
    ensures { MatchBool on (Flipped c words.old words.new) (words.new ≡ words.old) }
{
    if c / 64 < words.len() {
        words[c / 64] ^= u64::from(on) << (c % 64);
    }
}

// Adds a set to another: what both hold goes out.
pub fn add(set: &mut Set, other: &Set)
    ensures { set.new ≡ xors set.old other.now }
{
    *set = (u64x8::from_array(*set) ^ u64x8::from_array(*other)).to_array();
}

// What both sets hold.
pub fn shared(set: &Set, other: &Set) -> Set
    ensures { result ≡ ands set.now other.now }
{
    (u64x8::from_array(*set) & u64x8::from_array(*other)).to_array()
}
