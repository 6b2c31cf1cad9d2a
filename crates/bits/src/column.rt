// A column of rows: which of them hold a number, as a set.
ghost use Rattle.std.specs.Prelude.{◌≡◌, ℕ, ◌^◌, ◌/◌, ◌%◌, ◌<◌, ◌&&◌, ◌||◌, [], bit_and, slice_index, slice_index_or, ◌==◌};
ghost use Rattle.bits.specs.Sets.{bit, holds, row};

use crate::set::{Set, has, put};
use std::simd::prelude::*;

// Which of eight words have this bit, the first word's answer lowest.
fn with_bit(words: u64x8, one: u64) -> u64
    ensures few { result < 2 ^ 8 }
    ensures each { (k : ℕ) → k < 8 → bit result k ≡ (bit_and (slice_index words k) one == one) }
{
    let one = u64x8::splat(one);
    (words & one).simd_eq(one).to_bitmask()
}

// Which of eight rows hold c. By vectors, since a search asks it of every row for each column.
fn byte_of(rows: &[Set; 8], c: usize) -> u64
    requires { c < 512 }
    ensures few { result < 2 ^ 8 }
    ensures each { (k : ℕ) → k < 8 → bit result k ≡ holds (slice_index_or rows.now k []) c }
{
    let i = c / 64;
    let [r0, r1, r2, r3, r4, r5, r6, r7] = rows;
    let words = [r0[i], r1[i], r2[i], r3[i], r4[i], r5[i], r6[i], r7[i]];
    with_bit(u64x8::from_array(words), 1 << (c % 64))
}

// Puts in the numbers 8i to 8i + 7 that a byte has bits for; nothing past the end of the words.
fn put_byte(set: &mut Set, i: usize, byte: u64)
    requires { byte < 2 ^ 8 }
    ensures { (r : ℕ) → r < 512 → holds set.new r ≡ (holds set.old r || (r / 8 == i && bit byte (r % 8))) }
{
    if i < 64 {
        set[i / 8] |= byte << (8 * (i % 8));
    }
}

// The rows that hold c, of the first 512, as a set.
pub fn holders(words: &[u64], c: usize) -> Set
    ensures { (r : ℕ) → r < 512 → holds result r ≡ holds (row words.now r) c }
{
    let mut set = [0; 8];
    if c >= 512 {
        return set;
    }
    let (rows, _) = words.as_chunks();
    let (eights, rest) = rows.as_chunks();
    for (i, eight) in eights.iter().enumerate() {
        put_byte(&mut set, i, byte_of(eight, c));
    }
    for (k, row) in rest.iter().enumerate() {
        if has(row, c) {
            put(&mut set, 8 * eights.len() + k);
        }
    }
    set
}
