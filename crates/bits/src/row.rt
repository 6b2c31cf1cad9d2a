// Rows of sets in one slice: row r is words 8r to 8r + 7.
ghost use Rattle.std.specs.Prelude.{◌≡◌, ◌+◌, ◌<◌, ◌≤◌, length, replicate, MatchOption, slice_index};
ghost use Rattle.std.specs.Simd.Lanes.{put_chunk};
ghost use Rattle.bits.specs.Sets.{holds, xors, row, put_row};

use crate::set::{Set, add, has};
use std::simd::prelude::*;

// Row r where the slice holds it whole.
fn whole_row(words: &[u64], r: usize) -> Option<&Set>
    ensures { MatchOption result (row words.now r ≡ replicate 8 0) (λ line. line.now ≡ row words.now r) }
{
    words.as_chunks().0.get(r)
}

// Row r; empty where the slice ends before it does.
pub fn line_at(words: &[u64], r: usize) -> Set
    ensures { result ≡ row words.now r }
{
    whole_row(words, r).copied().unwrap_or([0; 8])
}

// Whether row r holds c.
pub fn row_has(words: &[u64], r: usize, c: usize) -> bool
    ensures { result ≡ holds (row words.now r) c }
{
    whole_row(words, r).is_some_and(|line| has(line, c))
}

// Writes row r; nothing where the slice ends before it does. By a range: of `as_chunks_mut` a proof does not know what was written.
pub fn put_line(words: &mut [u64], r: usize, line: &Set)
    ensures { words.new ≡ put_row words.old r line.now }
{
    if r < words.len() / 8 {
        store(words, 8 * r, line);
    }
}

// Writes eight words.
fn store(words: &mut [u64], at: usize, line: &Set)
    requires { at + 8 ≤ length words.old }
    ensures { words.new ≡ put_chunk at words.old line.now }
{
    u64x8::from_array(*line).copy_to_slice(&mut words[at..at + 8]);
}

// Adds a set to row r.
pub fn add_line(words: &mut [u64], r: usize, line: &Set)
    ensures { words.new ≡ put_row words.old r (xors (row words.old r) line.now) }
{
    let mut sum = line_at(words, r);
    add(&mut sum, line);
    put_line(words, r, &sum);
}

// Adds row `from` to row `to`.
pub fn add_row(words: &mut [u64], to: usize, from: usize)
    ensures { words.new ≡ put_row words.old to (xors (row words.old to) (row words.old from)) }
{
    let line = line_at(words, from);
    add_line(words, to, &line);
}

// Empties every row.
pub fn wipe(words: &mut [u64])
    ensures { words.new ≡ replicate (length words.old) 0 }
{
    words.fill(0);
}
