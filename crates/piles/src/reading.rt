// How a line is read as a pile, or as a row. `let .. else { return Ok(None) }` is `?` of an `Option` where memory may run out too.
ghost use Rattle.std.specs.Prelude.{◌≡◌, IfOk, MatchOption, Some, None};
ghost use Rattle.std.specs.Option.{option_map};
ghost use Rattle.script.specs.Calls.{only};
ghost use Rattle.script.specs.Numbers.{number_of};
ghost use Rattle.script.specs.Words.{word, past};
ghost use Rattle.piles.specs.Readings.{base_written, pile_written, squares_from, squares_of, listed_of, circulant_of, base_of, halves_of, bases_of, interleaved_word, interleaved_of, stacked_of, pile_of};

use crate::base::Base;
use crate::pile::Pile;
use crate::written::read_list;
use codes::Squares;
use script::{is_blank, is_word, only_word, read_number, split_at_byte, split_word};
use std::alloc::{AllocError, Global};

// Whether a word is `interleaved`, which two readers ask.
fn is_interleaved(word: &[u8]) -> bool
    ensures { result ≡ interleaved_word word.now }
{
    is_word(word, "interleaved")
}

// A size that a word writes.
fn read_size(word: &[u8]) -> Option<usize>
    ensures { result ≡ number_of word.now }
{
    Some(read_number(word)? as usize)
}

// The first three words as the sizes of squares, and what follows them; none where they are no sizes.
fn read_squares(line: &[u8]) -> Option<(Squares, &[u8])>
    ensures { MatchOption result (squares_of line.now ≡ None) (λ p. (squares_of line.now ≡ Some p.0) × (p.1.now ≡ past 3 line.now)) }
{
    let (a, rest) = split_word(line);
    let (b, rest) = split_word(rest);
    let (z, rest) = split_word(rest);
    Some((squares_of(a, b, z)?, rest))
}

fn squares_of(a: &[u8], b: &[u8], z: &[u8]) -> Option<Squares>
    ensures { result ≡ squares_from (number_of a.now) (number_of b.now) (number_of z.now) }
{
    Some(Squares {
        a: read_size(a)?,
        b: read_size(b)?,
        z: read_size(z)?,
    })
}

// M N R:C R:C ..
fn read_listed(heap: Global, line: &[u8]) -> Result<Option<Base>, AllocError>
    ensures { IfOk result (λ o. option_map base_written o ≡ listed_of line.now) }
{
    let (m, rest) = split_word(line);
    let (n, rest) = split_word(rest);
    let (Some(m), Some(n)) = (read_size(m), read_size(n)) else {
        return Ok(None);
    };
    Ok(read_list(heap, rest)?.map(|records| Base::Listed { m, n, records }))
}

// A B Z E E ..
fn read_circulant(heap: Global, line: &[u8]) -> Result<Option<Base>, AllocError>
    ensures { IfOk result (λ o. option_map base_written o ≡ circulant_of line.now) }
{
    let Some((squares, rest)) = read_squares(line) else {
        return Ok(None);
    };
    Ok(read_list(heap, rest)?.map(|entries| Base::Circulant { squares, entries }))
}

// listed .. · circulant ..
fn read_base(heap: Global, line: &[u8]) -> Result<Option<Base>, AllocError>
    ensures { IfOk result (λ o. option_map base_written o ≡ base_of line.now) }
{
    match split_word(line) {
        (b"listed", rest) => read_listed(heap, rest),
        (b"circulant", rest) => read_circulant(heap, rest),
        _ => Ok(None),
    }
}

// What stands before the word `+`, and what behind it. No other word of a code holds a plus.
fn halves(line: &[u8]) -> Option<(&[u8], &[u8])>
    ensures { option_map (λ p. (p.0.now, p.1.now)) result ≡ halves_of line.now }
{
    let (before, behind) = split_at_byte(line, b'+')?;
    // Not by `last()?` and `first()?`: the goal `returns` stayed open.
    let [.., last] = before else {
        return None;
    };
    let [first, ..] = behind else {
        return None;
    };
    (is_blank(&[*last]) && is_blank(&[*first])).then_some((before, behind))
}

// CODE + CODE, two bases.
fn read_bases(heap: Global, line: &[u8]) -> Result<Option<(Base, Base)>, AllocError>
    ensures { IfOk result (λ o. option_map (λ p. (base_written p.0, base_written p.1)) o ≡ bases_of line.now) }
{
    let Some((upper, lower)) = halves(line) else {
        return Ok(None);
    };
    let Some(first) = read_base(heap, upper)? else {
        return Ok(None);
    };
    let Some(second) = read_base(heap, lower)? else {
        return Ok(None);
    };
    Ok(Some((first, second)))
}

// A B Z CODE
fn read_interleaved(heap: Global, line: &[u8]) -> Result<Option<Pile>, AllocError>
    ensures { IfOk result (λ o. option_map pile_written o ≡ interleaved_of line.now) }
{
    let Some((squares, below)) = read_squares(line) else {
        return Ok(None);
    };
    let (word, rest) = split_word(below);
    if is_word(word, "stacked") {
        let bases = read_bases(heap, rest)?;
        Ok(bases.map(|(first, second)| Pile::InterleavedStack(squares, first, second)))
    } else {
        Ok(read_base(heap, below)?.map(|base| Pile::Interleaved(squares, base)))
    }
}

// CODE + CODE, the first of them a base or an interleaved one.
fn read_stacked(heap: Global, line: &[u8]) -> Result<Option<Pile>, AllocError>
    ensures { IfOk result (λ o. option_map pile_written o ≡ stacked_of line.now) }
{
    let (word, rest) = split_word(line);
    if !is_interleaved(word) {
        let bases = read_bases(heap, line)?;
        return Ok(bases.map(|(first, second)| Pile::Stacked(first, second)));
    }
    let Some((squares, rest)) = read_squares(rest) else {
        return Ok(None);
    };
    let bases = read_bases(heap, rest)?;
    Ok(bases.map(|(first, second)| Pile::InterleavedInStack(squares, first, second)))
}

// The pile that a line writes; none where it is not understood. Not by a `match` on the word, here and in the two functions
// above: behind the arm `_` the word is known byte by byte only, and the goal `returns-in_ok-read_base-in_default` stayed open.
pub fn read_pile(heap: Global, line: &[u8]) -> Result<Option<Pile>, AllocError>
    ensures { IfOk result (λ o. option_map pile_written o ≡ pile_of line.now) }
{
    let (word, rest) = split_word(line);
    if is_interleaved(word) {
        read_interleaved(heap, rest)
    } else if is_word(word, "stacked") {
        read_stacked(heap, rest)
    } else {
        Ok(read_base(heap, line)?.map(Pile::Single))
    }
}

// The row that a line writes, its only word; none where it is not understood.
pub fn read_row(line: &[u8]) -> Option<u32>
    ensures { result ≡ only 1 line.now (number_of (word 0 line.now)) }
{
    read_number(only_word(line)?)
}
