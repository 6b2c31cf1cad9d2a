// Making a listed code: the caller's records are judged once, and read from then on.
ghost use Rattle.std.specs.Prelude.{◌≡◌, [], None, MatchResult};
ghost use Rattle.codes.specs.Listings.{listed_matrix};
ghost use Rattle.codes.specs.Records.{listed, sizes_fit, follows, good, first_bad, judged_records};
ghost use Rattle.codes.specs.Refusals.{told};

use crate::listed::Listed;
use crate::listed::starts::row_starts;
use crate::record::Record;
use crate::refusal::Refusal;
use crate::shape::{MAX_COLUMNS, MAX_ONES, MAX_ROWS};

fn follows(last: Option<Record>, k: Record) -> bool
    ensures { result ≡ follows last k }
{
    last.is_none_or(|j| j < k)
}

fn good(m: usize, n: usize, last: Option<Record>, k: Record) -> bool
    ensures { result ≡ good m n last k }
{
    usize::from(k.row) < m && usize::from(k.column) < n && follows(last, k)
}

// A loop, since each record is judged by the last one before it.
fn first_bad(m: usize, n: usize, records: &[Record]) -> Option<usize>
    ensures { result ≡ first_bad m n None 0 records.now }
{
    let mut last = None;
    for (i, k) in records.iter().enumerate() {
        if !good(m, n, last, *k) {
            return Some(i);
        }
        last = Some(*k);
    }
    None
}

fn sizes_fit(m: usize, n: usize) -> bool
    ensures { result ≡ sizes_fit m n }
{
    (1..=MAX_ROWS).contains(&m) && (1..=MAX_COLUMNS).contains(&n)
}

fn judge(m: usize, n: usize, records: &[Record]) -> Result<(), Refusal>
    ensures { told result ≡ judged_records m n records.now }
{
    if !sizes_fit(m, n) {
        return Err(Refusal::BadShape);
    }
    if let Some(i) = first_bad(m, n, records) {
        return Err(Refusal::BadEntry(i));
    }
    if records.len() > MAX_ONES {
        return Err(Refusal::BadShape);
    }
    Ok(())
}

impl<'a> Listed<'a> {
    // The smallest code: one empty row of one column. `make` overwrites it: the rules fix a making over a code that
    // the caller holds.
    pub fn smallest() -> Listed<'a>
        ensures { listed_matrix result ≡ listed 1 1 [] }
    {
        Listed {
            m: 1,
            n: 1,
            records: &[],
            starts: row_starts(&[]),
        }
    }

    // Makes this the code of m rows and n columns that has its ones where the records say, or refuses and leaves it as it is.
    pub fn make(&mut self, m: usize, n: usize, records: &'a [Record]) -> Result<(), Refusal>
        ensures answer { told result ≡ judged_records m n records.now }
        ensures code { MatchResult result (λ _. listed_matrix self.new ≡ listed m n records.now) (λ _. self.new ≡ self.old) }
    {
        judge(m, n, records)?;
        let starts = row_starts(records);
        *self = Listed {
            m,
            n,
            records,
            starts,
        };
        Ok(())
    }
}
