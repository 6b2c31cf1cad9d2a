// Base entries: their squares, and how they are judged.
ghost use Rattle.std.specs.Prelude.{◌≡◌, ◌*◌, ◌<◌, ◌≤◌, Ok, Err, MatchResult, nat_le, not, position};
ghost use Rattle.codes.specs.Refusals.{meaning};
ghost use Rattle.quasi_cyclic.specs.Entries.{shift_of, turned, base_fits, entry_fits, filled_squares, judged_entries};

use codes::{MAX_COLUMNS, MAX_ONES, MAX_ROWS, Refusal, Squares};

// The shift of an entry's square, none where the square is empty.
pub(crate) fn shift(e: i16) -> Option<u16>
    ensures { result ≡ shift_of e }
{
    u16::try_from(e).ok()
}

// The column that row r holds within a square of shift s. That z is small the caller's own invariant says.
pub(crate) fn turned(z: usize, r: usize, s: usize) -> usize
    requires within { s < z }
    requires small { z ≤ 512 }
    ensures { result ≡ turned z r s }
{
    (r % z + s) % z
}

// How many squares are not empty.
pub(crate) fn filled_squares(entries: &[i16]) -> usize
    ensures { result ≡ filled_squares entries.now }
{
    entries
        .iter()
        .map(|e| usize::from(shift(*e).is_some()))
        .sum()
}

fn entry_fits(z: usize, e: i16) -> bool
    ensures { result ≡ entry_fits z e }
{
    shift(e).map_or(e == -1, |s| usize::from(s) < z)
}

// The place of the first entry that breaks its rule.
fn first_bad_entry(z: usize, entries: &[i16]) -> Option<usize>
    ensures { result ≡ position (λ e. not (entry_fits z e)) entries.now }
{
    entries.iter().position(|e| !entry_fits(z, *e))
}

// Whether a product is at most a bound, however large it is.
fn product_within(x: usize, y: usize, bound: usize) -> bool
    ensures { result ≡ nat_le (x * y) bound }
{
    x.checked_mul(y).is_some_and(|p| p <= bound)
}

fn base_fits(squares: Squares, len: usize) -> bool
    ensures { result ≡ base_fits squares.a squares.b squares.z len }
{
    let Squares { a, b, z } = squares;
    a >= 1
        && b >= 1
        && z >= 1
        && product_within(a, z, MAX_ROWS)
        && product_within(b, z, MAX_COLUMNS)
        && a.checked_mul(b) == Some(len)
}

// The number of ones of the code that these squares and entries give, or why there is none.
pub(crate) fn judge(squares: Squares, entries: &[i16]) -> Result<usize, Refusal>
    ensures { MatchResult result (λ ones. (judged_entries squares.a squares.b squares.z entries.now ≡ Ok tt) × (ones ≡ filled_squares entries.now * squares.z)) (λ e. judged_entries squares.a squares.b squares.z entries.now ≡ Err (meaning e)) }
{
    if !base_fits(squares, entries.len()) {
        return Err(Refusal::BadShape);
    }
    if let Some(i) = first_bad_entry(squares.z, entries) {
        return Err(Refusal::BadEntry(i));
    }
    filled_squares(entries)
        .checked_mul(squares.z)
        .filter(|ones| *ones <= MAX_ONES)
        .ok_or(Refusal::BadShape)
}
